use passes::{Kind, Pass};

/// The environment, which puts items and tags, and gets items.
pub struct Env;

impl Kind for Env {
    ghost use Rattle.std.specs.Prelude.{◌<◌};
    ghost use Rattle.machine.specs.Machine.{IsPut};

    ghost makes = { IsPut };

    ghost is_numbered = { λ envs number. number < envs };
}

/// A worker, who runs instances.
pub struct Work;

impl Kind for Work {
    ghost use Rattle.std.specs.Prelude.{⊤};
    ghost use Rattle.commit.specs.Runs.{IsEnd};

    ghost makes = { IsEnd };

    ghost is_numbered = { λ _ _. ⊤ };
}

/// A pass of the environment.
pub type EnvPass<J> = Pass<J, Env>;

/// A pass of a worker.
pub type WorkPass<J> = Pass<J, Work>;
