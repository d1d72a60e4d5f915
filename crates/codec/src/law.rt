ghost use Rattle.std.specs.Prelude.{◌≡◌, ◌≤◌, Ok};
ghost use Rattle.terms.specs.declared.key.TheConstants.{MAX_COMPONENTS};
ghost use Rattle.codec.specs.Commits.{IsCommit, commit_bytes, SpellsCommit, GroupOfOneSpellsNone};
ghost use Rattle.codec.specs.Image.{IsInOrder};
ghost use Rattle.codec.specs.Laws.{ReadsBack, SpellsOne, BeginsNoOther};
ghost use Rattle.codec.specs.declared.image.Image.{Image};
ghost use Rattle.codec.specs.Reading.{decoded_event, decoded_payload, decoded_image};
ghost use Rattle.codec.specs.Spelling.{IsEvent, event_bytes, SpellsEvent, IsImage, image_bytes, SpellsImage};

/// An event has one spelling, which is read as that event. No other bytes are read as that event, and no spelling is a
/// proper prefix of another. This holds for each greatest number of components, `most`.
pub fn spellings_of_events(most: usize)
    requires { most ≤ MAX_COMPONENTS }
    ensures back { ReadsBack (IsEvent most) event_bytes (decoded_event most) }
    ensures one { SpellsOne (SpellsEvent most) }
    ensures begins { BeginsNoOther (IsEvent most) event_bytes }
{}

/// The same for images.
pub fn spellings_of_images(most: usize)
    requires { most ≤ MAX_COMPONENTS }
    ensures back { ReadsBack (IsImage most) image_bytes (decoded_image most) }
    ensures one { SpellsOne (SpellsImage most) }
    ensures begins { BeginsNoOther (IsImage most) image_bytes }
{}

/// The image that these bytes are read as is the one that they spell, and it can be spelled again.
pub fn image_is_spelled(bytes: &[u8], most: usize)
    requires { most ≤ MAX_COMPONENTS }
    ensures { (image : Image) → decoded_image most bytes.now ≡ Ok image → SpellsImage most bytes.now image × IsInOrder image }
{
    let _ = bytes;
}

/// The laws of spellings for commits, which payloads spell. A group of one event spells no commit.
pub fn spellings_of_commits(most: usize)
    requires { most ≤ MAX_COMPONENTS }
    ensures back { ReadsBack (IsCommit most) commit_bytes (decoded_payload most) }
    ensures one { SpellsOne (SpellsCommit most) }
    ensures begins { BeginsNoOther (IsCommit most) commit_bytes }
    ensures group { GroupOfOneSpellsNone most }
{}
