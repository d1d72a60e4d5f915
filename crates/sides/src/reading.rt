ghost use Rattle.std.specs.Prelude.{◌≤◌, ℕ, length, IfOk, IsErrOf};
ghost use Rattle.sides.specs.Side.{IsOpen, HasGeneration, IsNoSide};
ghost use Rattle.sides.specs.Reading.{IsRead};
ghost use Rattle.sides.specs.declared.error.SideError.TheVariants.{Damaged};

use crate::SideError;
use crate::gate::{FORMAT, HEAD};
use crate::parts::{COUNT, counted_at, read_graph, read_image};
use crate::replay::{Replay, take_commits};
use codec::spellings_of_images;
use graph::{Graph, fitting, one_reading};
use holdings::Holdings;
use std::alloc::Global;
use terms::MAX_COMPONENTS;

/// What the bytes of a side stand for.
#[derive(Drop)]
pub struct Standing {
    pub graph: Graph,
    /// The canonical text of the graph.
    pub text: Vec<u8>,
    pub holdings: Holdings,
    /// The position where the journal begins.
    pub start: u64,
    /// The position of the closed gate that ends the journal.
    pub end: u64,
}

/// Reads the bytes of an open side that has its generation.
///
/// `Damaged` gives the position of the first check that failed: 1 for the format; 10 for the length of the graph's text;
/// 14 for that text; the position of the image's length for the image; for the journal, the gate of the first record that is
/// not whole and followed by a gate, is no commit or does not fit, or the place where the journal's first byte is missing.
pub fn read_side(alloc: Global, bytes: &[u8]) -> Result<Standing, SideError>
    requires { IsOpen bytes.now × (10 ≤ length bytes.now) }
    ensures read { IfOk result (λ standing. (generation : ℕ) → HasGeneration bytes.now generation → IsRead bytes.now generation standing) }
    ensures nothing { (place : ℕ) → IsErrOf result (Damaged place) → IsNoSide bytes.now }
{
    one_reading();
    fitting();
    spellings_of_images(MAX_COMPONENTS);
    if bytes[1] != FORMAT {
        return Err(SideError::Damaged(1));
    }
    let Some(text) = counted_at(bytes, HEAD) else {
        return Err(SideError::Damaged(HEAD as u64));
    };
    let Some((graph, own)) = read_graph(alloc, text)? else {
        return Err(SideError::Damaged((HEAD + COUNT) as u64));
    };
    let at = HEAD + COUNT + text.len();
    let Some(image) = counted_at(bytes, at) else {
        return Err(SideError::Damaged(at as u64));
    };
    let Some(mut holdings) = read_image(alloc, &graph, image)? else {
        return Err(SideError::Damaged(at as u64));
    };
    let start = at + COUNT + image.len();
    match take_commits(alloc, &graph, &mut holdings, &bytes[start..])? {
        Replay::Ended(end) => Ok(Standing {
            graph,
            text: own,
            holdings,
            start: start as u64,
            end: (start + end) as u64,
        }),
        Replay::Broken(place) => Err(SideError::Damaged((start + place) as u64)),
    }
}
