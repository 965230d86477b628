//! The text that `{}` gives for each fault whose text no contract names.
use byte_io::{ReadError, WriteFault};
use fabric_sim::FabricFault;
use fact_store::{IngestFault, Refused, ReportFault};
use lid_assign::{LidFault, NoRoom};
use next_tables::StepFault;
use record_file::FileFault;
use schedule_file::ScheduleFault;
use sm_cli::{Fault, TextFault};
use sm_manager::ManagerFault;
use smp_bytes::{Guid, Lid, SmpFault};
use std::alloc::Global;
use std::fmt::Display;
use sweep::SweepFault;
use topo_file::TopoFault;

const REPORTS: [(ReportFault, &str); 16] = [
    (ReportFault::Generation, "Generation"),
    (ReportFault::Smp(SmpFault::BaseVersion), "BaseVersion"),
    (ReportFault::Smp(SmpFault::Class), "Class"),
    (ReportFault::Smp(SmpFault::ClassVersion), "ClassVersion"),
    (ReportFault::Smp(SmpFault::HopCount), "HopCount"),
    (ReportFault::Smp(SmpFault::HopPointer), "HopPointer"),
    (ReportFault::Smp(SmpFault::DrLid), "DrLid"),
    (ReportFault::Class, "Class"),
    (ReportFault::Method, "Method"),
    (ReportFault::Direction, "Direction"),
    (ReportFault::Status, "Status"),
    (ReportFault::Attribute, "Attribute"),
    (ReportFault::Context, "Context"),
    (ReportFault::Modifier, "Modifier"),
    (ReportFault::NodeType, "NodeType"),
    (ReportFault::Port, "Port"),
];

const STORES: [(IngestFault, &str); 2] = [
    (IngestFault::Report(ReportFault::Status), "Status"),
    (IngestFault::Memory, "out of memory"),
];

const REFUSED: [(Refused, &str); 1] = [(Refused::Memory, "out of memory")];

/// Two numbers that differ.
const NO_ROOM: NoRoom = NoRoom {
    endports: 70000,
    room: 512,
};

const LIDS: [(LidFault, &str); 2] = [
    (LidFault::NoRoom(NO_ROOM), "NoRoom"),
    (LidFault::Memory, "Memory"),
];

const SWEEPS: [(SweepFault, &str); 4] = [
    (SweepFault::NotOutstanding, "NotOutstanding"),
    (SweepFault::Bad(ReportFault::Method), "Method"),
    (SweepFault::SequenceSpent, "SequenceSpent"),
    (SweepFault::Memory, "Memory"),
];

const MANAGERS: [(ManagerFault, &str); 11] = [
    (ManagerFault::GenerationsSpent, "GenerationsSpent"),
    (ManagerFault::SweepRunning, "SweepRunning"),
    (ManagerFault::NotMaster, "NotMaster"),
    (ManagerFault::WritingRunning, "WritingRunning"),
    (ManagerFault::NotStandby, "NotStandby"),
    (ManagerFault::Nobody, "Nobody"),
    (ManagerFault::SequenceSpent, "SequenceSpent"),
    (ManagerFault::NoRoom(NO_ROOM), "NoRoom"),
    (
        ManagerFault::Sweep(SweepFault::NotOutstanding),
        "NotOutstanding",
    ),
    (ManagerFault::Unasked, "Unasked"),
    (ManagerFault::Memory, "Memory"),
];

const FABRICS: [(FabricFault, &str); 5] = [
    (FabricFault::NoSuchPacket, "NoSuchPacket"),
    (FabricFault::NoSuchPort, "NoSuchPort"),
    (FabricFault::PortTaken, "PortTaken"),
    (FabricFault::Memory, "Memory"),
    (FabricFault::SerialsSpent, "SerialsSpent"),
];

const BAD: FileFault = FileFault::BadReport {
    index: 3,
    fault: ReportFault::Port,
};

const FILES: [(FileFault, &str); 9] = [
    (FileFault::Magic, "bad magic"),
    (FileFault::Truncated { offset: 280 }, "truncated at 280"),
    (BAD, "bad report 3: Port"),
    (FileFault::BadCell { index: 4 }, "bad cell 4"),
    (FileFault::CellOrder { index: 5 }, "cell out of order 5"),
    (FileFault::Read, "read failed"),
    (FileFault::Memory, "out of memory"),
    (FileFault::TooLong, "too long"),
    (FileFault::BadFloor, "bad floor"),
];

const READS: [(ReadError, &str); 2] = [
    (ReadError::Failed, "read failed"),
    (ReadError::Interrupted, "interrupted"),
];

const WRITES: [(WriteFault, &str); 1] = [(WriteFault::Write, "write failed")];

/// A fault in the third line.
const PEER: TopoFault = TopoFault::Peer { line: 3 };

const SEAT: ScheduleFault = ScheduleFault::Seat { line: 3 };

const LID: tables_file::TablesTextFault = tables_file::TablesTextFault::Line(
    tables_file::TablesLineFault {
        line: 3,
        wrong: tables_file::TablesTextError::Lid,
    },
);

const LANE: lanes_file::LanesTextFault = lanes_file::LanesTextFault::Line(
    lanes_file::LanesLineFault {
        line: 3,
        wrong: lanes_file::LanesTextError::Lane,
    },
);

const AGAIN: roots_file::RootsTextFault = roots_file::RootsTextFault::Line(
    roots_file::RootsLineFault {
        line: 3,
        wrong: roots_file::RootsTextError::Repeated,
    },
);

const TEXTS: [(TextFault, &str); 7] = [
    (TextFault::NotUtf8, "not UTF-8"),
    (TextFault::Topology(PEER), "line 3: peer"),
    (TextFault::Schedule(SEAT), "line 3: seat"),
    (TextFault::Tables(LID), "line 3: lid"),
    (TextFault::Lanes(LANE), "line 3: lane"),
    (TextFault::Roots(AGAIN), "line 3: repeated"),
    (TextFault::NoRoot, "no root"),
];

const RUNS: [(Fault, &str); 6] = [
    (Fault::Open { input: 1 }, "cannot open"),
    (
        Fault::File {
            input: 1,
            fault: BAD,
        },
        "bad report 3: Port",
    ),
    (
        Fault::Text {
            input: 1,
            fault: TextFault::NoRoot,
        },
        "no root",
    ),
    (Fault::NoRoom(NO_ROOM), "no room: 70000 end ports, room 512"),
    (Fault::Write, "write failed"),
    (Fault::Memory, "out of memory"),
];

/// Returns the fault of a root that is not a usable switch.
fn no_switch() -> [(TextFault, &'static str); 1] {
    let guid = Guid::new(0xAB);
    [(
        TextFault::NoSwitch(guid),
        "no usable switch 00000000000000ab",
    )]
}

/// Returns the fault of a LID that moves.
fn moved() -> [(TextFault, &'static str); 1] {
    [(TextFault::Moves(Lid::new(49151)), "lid 49151 moves")]
}

/// Returns the faults of a step.
fn steps() -> [(StepFault, &'static str); 2] {
    [
        (StepFault::Moves(Lid::new(258)), "lid 258 moves"),
        (StepFault::Memory, "out of memory"),
    ]
}

/// Returns the first text that differs from what `{}` gives for the fault beside it, or `None` if there is none.
fn untold<T: Display>(alloc: Global, rows: &[(T, &'static str)]) -> Option<&'static str> {
    for (fault, text) in rows {
        match format!(in alloc; "{fault}") {
            Ok(told) if told.as_str() == *text => {}
            _ => return Some(text),
        }
    }
    None
}

#[test]
fn faults_are_told(rt: HostRuntime) {
    let alloc = rt.alloc();
    for untold in [
        untold(alloc, &REPORTS),
        untold(alloc, &STORES),
        untold(alloc, &REFUSED),
        untold(alloc, &LIDS),
        untold(alloc, &SWEEPS),
        untold(alloc, &MANAGERS),
        untold(alloc, &FABRICS),
        untold(alloc, &FILES),
        untold(alloc, &READS),
        untold(alloc, &WRITES),
        untold(alloc, &TEXTS),
        untold(alloc, &no_switch()),
        untold(alloc, &moved()),
        untold(alloc, &steps()),
        untold(alloc, &RUNS),
    ] {
        assert!(rt; untold == None);
    }
}
