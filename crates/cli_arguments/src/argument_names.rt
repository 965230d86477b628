//! The names of subcommands, arguments and options, and the words for rules of routing.

/// The subcommand that prints facts.
pub const FACTS: &str = "facts";

/// The subcommand that writes a store file.
pub const JOIN: &str = "join";

/// The subcommand that prints the plan.
pub const PLAN: &str = "plan";

/// The subcommand that audits tables.
pub const AUDIT: &str = "audit";

/// The subcommand that prints the tables to write next.
pub const NEXT: &str = "next";

/// The subcommand that runs a schedule.
pub const RUN: &str = "run";

/// The subcommand that serves a manager.
pub const SERVE: &str = "serve";

/// The subcommand that runs a manager that decides by itself.
pub const MANAGE: &str = "manage";

/// The argument for the GUID of a manager's port.
pub const GUID: &str = "GUID";

/// The argument for the number of a manager's port.
pub const PORT: &str = "PORT";

/// The argument for a manager's priority.
pub const PRIORITY: &str = "PRIORITY";

/// The option for a manager's SM_Key.
pub const SM_KEY: &str = "sm-key";

/// The option for the time from the end of a master's sweep to its next one.
pub const EVERY: &str = "every";

/// The option for the time from one poll of a standby to its next one.
pub const POLL: &str = "poll";

/// The option for writing the multicast tree too.
pub const MULTICAST: &str = "multicast";

/// The flag that makes a manager plan only after sweeps that had every answer.
pub const STRICT: &str = "strict";

/// The option for the time that an answer is waited for.
pub const TIMEOUT: &str = "timeout";

/// The option for how often a request is sent.
pub const TRIES: &str = "tries";

/// The option for the number of requests that are out at a time.
pub const OUTSTANDING: &str = "outstanding";

/// The option for the newest generation that is known.
pub const NEWEST: &str = "newest";

/// The argument for the report and store files of a subcommand.
pub const FILE: &str = "FILE";

/// The argument for the text of tables.
pub const TABLES: &str = "TABLES";

/// The option for the floor, the generation below which facts are ignored.
pub const FLOOR: &str = "floor";

/// The flag that makes an audit print all lines of each kind.
pub const ALL: &str = "all";

/// The option for the greatest load of a channel with which tables pass.
pub const MAX_LOAD: &str = "max-load";

/// The flag that makes an audit print the load of each channel.
pub const LOADS: &str = "loads";

/// The option for the packet whose way an audit prints.
pub const WAY: &str = "way";

/// The option that names a file of lanes. If it is given, an audit judges credit loops lane by lane.
pub const LANES: &str = "lanes";

/// The option for the text of tables whose order is printed.
pub const HELD: &str = "held";

/// The option for the file of the order that the last step went by.
pub const LAST_ORDER: &str = "last-order";

/// The option for the LMC of a plan.
pub const LMC: &str = "lmc";

/// The option for the rule of routing of a plan.
pub const ROUTING: &str = "routing";

/// The option for the file of roots.
pub const ROOTS: &str = "roots";

/// The subcommand that prints the order of switches, and the option for the file of an order.
pub const ORDER: &str = "order";

/// The rule that spreads packets over all wires. Roots or an order may be named with this rule.
pub const SPREAD: &str = "spread";

/// The rule that spreads packets with balanced loads. An order may be named with this rule, but no roots.
pub const BALANCE: &str = "balance";

/// The up/down rule, which takes neither roots nor an order.
pub const UPDOWN: &str = "updown";

/// The argument for the text of a topology.
pub const TOPOLOGY: &str = "TOPOLOGY";

/// The argument for the text of a schedule.
pub const SCHEDULE: &str = "SCHEDULE";
