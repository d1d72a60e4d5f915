use crate::rule::{Keeper, Words};
use crate::{Board, Desk, Naming};
use atomic_table::Table;
use std::alloc::{AllocError, Global};
use std::marker::{Model, PhantomData};

/// The two words before the first pass is made, and how many passes there are to be: `envs` for the environment, and `workers` for
/// workers.
#[derive(Drop)]
pub struct Blank {
    words: Words,
    keeper: Keeper,
    envs: u8,
    workers: u8,
}

impl Model for Blank {
    ghost use Rattle.std.specs.Prelude.{◌≡◌, []};
    ghost use Rattle.passes.specs.Known.{desk, first_desk};
    ghost use Rattle.passes.specs.Roll.{Blank as Seen};

    ghost Value = { Seen };

    ghost view = { λ b. record { table = b.words.shared.table_id; envs = b.envs; workers = b.workers } };

    ghost invariant = { λ b. (b.words.shared.table_id.words ≡ 2) × (b.keeper.table_id ≡ b.words.shared.table_id) × (b.keeper.me ≡ (desk first_desk, [])) };
}

impl Blank {
    ghost use Rattle.std.specs.Prelude.{◌≡◌, IfOk};
    ghost use Rattle.passes.specs.Known.{first_desk};

    /// The words for this many passes.
    pub fn new(alloc: Global, envs: u8, workers: u8) -> Result<Blank, AllocError>
        ensures { IfOk result (λ blank. (blank.envs ≡ envs) × (blank.workers ≡ workers)) }
    {
        let (words, keeper) = Table::of_words(alloc, &[0, 0], &())?;
        Ok(Blank {
            words,
            keeper,
            envs,
            workers,
        })
    }

    /// How many passes there are to be for the environment.
    pub fn envs(&self) -> u8
        ensures { result ≡ self.now.envs }
    {
        self.envs
    }

    /// How many passes there are to be for workers.
    pub fn workers(&self) -> u8
        ensures { result ≡ self.now.workers }
    {
        self.workers
    }

    /// The board and the desk, before the first pass is made.
    pub fn open<J: Naming>(self) -> (Board<J>, Desk<J>)
        requires { J.table ≡ self.table }
        ensures { result.1 ≡ first_desk }
    {
        let Blank {
            words,
            keeper,
            envs: _,
            workers: _,
        } = self;
        let board = Board {
            words,
            of: PhantomData,
        };
        let desk = Desk {
            seat: keeper,
            of: PhantomData,
        };
        (board, desk)
    }
}
