//! The parts of a side before its journal. A missing part is no error here: the functions return `None`.
ghost use Rattle.std.specs.Prelude.{◌≤◌, length, IfOk, IfSome, MatchOption};
ghost use Rattle.holdings.specs.Holdings.{HavePutNumbers, IsFor};
ghost use Rattle.sides.specs.Reading.{IsCountedAt, HasNoneAt, FindsGraph, FindsImageOf};

use crate::fitting::fits;
use byteorder::{ByteOrder, LittleEndian};
use codec::spellings_of_images;
use graph::{Graph, GraphError, one_reading, parse_spelled, reads_without_fault};
use holdings::{Holdings, images_of_maps};
use std::alloc::{AllocError, Global};
use terms::MAX_COMPONENTS;

/// The number of bytes that spell a part's length, before the part.
pub(crate) const COUNT: usize = 4;

/// The part whose length stands at a position, if the part is there whole.
pub(crate) fn counted_at(bytes: &[u8], at: usize) -> Option<&[u8]>
    requires { at ≤ length bytes.now }
    ensures { MatchOption result (HasNoneAt bytes.now at) (λ part. IsCountedAt bytes.now at part.now) }
{
    let rest = &bytes[at..];
    if rest.len() < COUNT {
        return None;
    }
    let count = LittleEndian::read_u32(rest) as usize;
    if rest.len() - COUNT < count {
        return None;
    }
    Some(&rest[COUNT..COUNT + count])
}

/// The graph that has this canonical text, and the text spelled anew.
pub(crate) fn read_graph(alloc: Global, text: &[u8]) -> Result<Option<(Graph, Vec<u8>)>, AllocError>
    ensures { IfOk result (FindsGraph text.now) }
{
    reads_without_fault();
    one_reading();
    match parse_spelled(alloc, text) {
        Ok((graph, own)) => {
            if own.as_slice() == text {
                Ok(Some((graph, own)))
            } else {
                Ok(None)
            }
        }
        Err(fault) => match fault.error {
            GraphError::NoMemory => Err(AllocError),
            _ => Ok(None),
        },
    }
}

/// What is listed by the image that these bytes spell, if it fits the graph.
pub(crate) fn read_image(
    alloc: Global,
    graph: &Graph,
    bytes: &[u8],
) -> Result<Option<Holdings>, AllocError>
    ensures image { IfOk result (FindsImageOf graph.now bytes.now) }
    ensures numbered { IfOk result (λ found. IfSome found (λ holdings. HavePutNumbers holdings)) }
    ensures collections { IfOk result (λ found. IfSome found (IsFor graph.now)) }
{
    spellings_of_images(MAX_COMPONENTS);
    images_of_maps();
    let Some(holdings) = Holdings::of_image(alloc, graph, bytes)? else {
        return Ok(None);
    };
    if fits(&holdings, graph) {
        Ok(Some(holdings))
    } else {
        Ok(None)
    }
}
