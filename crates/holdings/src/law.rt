//! The laws of what an image lists. Each is a contract, with nothing to run.
ghost use Rattle.codec.specs.declared.image.Image.{Image};
ghost use Rattle.holdings.specs.ImageLaws.{DoneTell, FittingIsWithin, ImagesTell, TellsRest};

use terms::{facts_are_told_apart, orders_are_total};

/// What an image says, by the kind of the fact: if its lists are made of finite maps, it has just their entries, in order; if its facts fit
/// a graph, it names only collections and steps of it.
pub fn images_of_maps()
    ensures maps { ImagesTell }
    ensures done { DoneTell }
    ensures rest { (image : Image) → TellsRest image }
    ensures within { FittingIsWithin }
{
    facts_are_told_apart();
    orders_are_total();
}
