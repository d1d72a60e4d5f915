use std::marker::Brand;

/// Names a hub. A program picks the name once, where it opens the hub; each pass has it in its type, and so belongs to
/// that hub alone.
pub trait Naming {
    ghost use Rattle.std.specs.Prelude.{ℕ};
    ghost use Rattle.disk.specs.Time.{Contents};
    ghost use Rattle.atomic_table.specs.Seated.{TableId};
    ghost use Rattle.passes.specs.Opening.{Opening};

    /// The hub's two words.
    ghost table: { TableId };

    /// How many passes there are.
    ghost passes: { ℕ };

    /// How many of them are of the environment.
    ghost envs: { ℕ };

    /// What the hub was opened with.
    ghost opening: { Opening };

    /// For each moment, what a crash may leave, as the disk says when the hub is opened.
    ghost left: { ℕ → Contents → Type 0 };
}

// Placeholders: where `Brand` is passed, the proof of the call picks the values.
impl Naming for Brand {
    ghost use Rattle.std.specs.Prelude.{[]};
    ghost use Rattle.passes.specs.Opening.{nothing};

    ghost table = { record { words = 0; slots = 0; views_name = 0; atom = 0; block = 0; offset = 0; slot_names = [] } };

    ghost passes = { 0 };

    ghost envs = { 0 };

    ghost opening = { nothing };

    ghost left = { λ _ _. ⊥ };
}
