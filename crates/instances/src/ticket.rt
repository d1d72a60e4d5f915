use terms::Inst;

/// The right to ask for an instance that was ready when the ticket was handed out, under a number of its own. It is neither `Copy` nor `Clone`: who asks by it spends it.
#[derive(Drop)]
pub struct Ticket {
    pub(crate) inst: Inst,
    pub(crate) number: u64,
}
