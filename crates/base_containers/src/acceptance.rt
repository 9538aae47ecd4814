//! Which tapes are of documents that `serde_json` reads: it refuses numbers that are too large, and more than 127 levels.

ghost use Rattle.std.specs.Prelude.{◌≡◌, ◌&&◌, ◌+◌, ◌<◌, ◌≤◌, ◌^◌, IfSome, map};
ghost use Rattle.std.specs.List.{list_all};
ghost use Rattle.json.specs.Tape.{node_token};
ghost use Rattle.base_containers.specs.Accepted.{is_read_node, is_within, room_after};

use crate::number::number_in;
use json::Node;

/// Whether `serde_json` reads the document of a tape: all its numbers are in range, and arrays and objects nest no deeper than it allows.
pub fn are_accepted(nodes: &[Node<'_>]) -> bool
    ensures { result ≡ (list_all is_read_node nodes.now && is_within 127 (map node_token nodes.now)) }
{
    let mut room: usize = 127;
    for node in nodes {
        if !is_read(node) {
            return false;
        }
        match room_after(room, node) {
            Some(left) => room = left,
            None => return false,
        }
    }
    true
}

/// Whether a node is no number that is out of range.
fn is_read(node: &Node<'_>) -> bool
    ensures { result ≡ is_read_node node.now }
{
    match node {
        Node::Number(text) => number_in(*text).is_some(),
        _ => true,
    }
}

/// The levels that are left after a node, if there are enough.
fn room_after(room: usize, node: &Node<'_>) -> Option<usize>
    requires { room + 1 < 2 ^ 64 }
    ensures after { result ≡ room_after room (node_token node.now) }
    ensures bound { IfSome result (λ left. left ≤ room + 1) }
{
    match node {
        Node::Object(_) | Node::Array(_) => { if room == 0 { None } else { Some(room - 1) } }
        Node::EndObject | Node::EndArray => Some(room + 1),
        _ => Some(room),
    }
}
