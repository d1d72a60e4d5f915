ghost use Rattle.terms.specs.PutLists.{PutFactsGoOn, ItemsOfPuts, TagsOfPuts, PutsEndNothing};

/// A law, with nothing to run: what the puts of an instance state, each with its number in the list.
pub fn puts_are_stated()
    ensures go_on { PutFactsGoOn }
    ensures items { ItemsOfPuts }
    ensures tags { TagsOfPuts }
    ensures end_nothing { PutsEndNothing }
{}
