use std::marker::Model;

/// The numbers of tickets, from 0: each is drawn once, and none after the greatest `u64`. A contract sees how many were drawn.
#[derive(Drop)]
pub struct Numbers {
    // The next one, if there is one.
    next: Option<u64>,
}

impl Model for Numbers {
    ghost use Rattle.std.specs.Prelude.{ℕ, ◌<◌, ◌^◌, IfSome};
    ghost use Rattle.instances.specs.Tickets.{drawn};

    ghost Value = { ℕ };

    ghost view = { λ n. drawn n.next };

    ghost invariant = { λ n. IfSome n.next (λ number. number < 2 ^ 64) };
}

impl Numbers {
    ghost use Rattle.std.specs.Prelude.{◌≡◌, ◌↔◌, ◌+◌, ◌^◌, IfSome, None, true};

    /// None was drawn.
    pub fn new() -> Numbers
        ensures { result ≡ 0 }
    {
        Numbers { next: Some(0) }
    }

    /// Whether the last number was drawn.
    pub fn is_over(&self) -> bool
        ensures { (result ≡ true) ↔ (self.now ≡ 2 ^ 64) }
    {
        self.next.is_none()
    }

    /// The next number, if there is one.
    pub(crate) fn next(&self) -> Option<u64>
        ensures some { IfSome result (λ number. number ≡ self.now) }
        ensures none { result ≡ None → self.now ≡ 2 ^ 64 }
    {
        self.next
    }

    /// Draws this number, which is the next one.
    pub(crate) fn draw(&mut self, number: u64)
        requires { number ≡ self.old }
        ensures { self.new ≡ self.old + 1 }
    {
        self.next = number.checked_add(1);
    }
}
