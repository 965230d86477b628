//! The word that names a packet: who sends it, and its LID.
ghost use Rattle.std.specs.Prelude.{◌≡◌, ◌==◌, option_map, position};
ghost use Rattle.text_words.specs.Quoted.{until};
ghost use Rattle.cli_arguments.specs.WayWord.{packet_named};

use smp_bytes::{Guid, Lid, PortNum};
use text_words::{count, node_port};

/// The greatest LID of an end port (InfiniBand Architecture Specification, Volume 1, local identifiers).
const GREATEST_LID: u16 = 49151;

/// Returns the node, the port and the LID that `word` names, as in `0000000000000100/1,5`: the port that sends a
/// packet, and the LID that the packet is sent to. The port is from 0 to 254, the LID from 1 to 49,151. Returns `None`
/// if `word` is not of this form.
pub fn packet_named(word: &[u8]) -> Option<(Guid, PortNum, Lid)>
    ensures { result ≡ packet_named word.now }
{
    let (sender, lid) = before_comma(word)?;
    let (node, port) = node_port(sender)?;
    let port = port?;
    let lid = count(lid, GREATEST_LID)?;
    Some((node, port, Lid::new(lid?)))
}

/// Returns the part of `word` before its first comma and the part after it, or `None` if `word` has no comma.
#[tactic(auto, using(text_words::proofs::Splits::until_at, text_words::proofs::Splits::until_none))]
fn before_comma(word: &[u8]) -> Option<(&[u8], &[u8])>
    ensures { option_map (λ x. (x.0.now, x.1.now)) result ≡ until 44 word.now }
{
    let len = comma(word)?;
    Some((&word[..len], &word[len + 1..]))
}

/// Returns the index of the first comma in `word`, or `None` if `word` has no comma.
fn comma(word: &[u8]) -> Option<usize>
    ensures { result ≡ position (λ b. b == 44) word.now }
{
    word.iter().position(|b| *b == b',')
}
