//! The laws of the crates below, each called once: there is nothing to run.
use disk::{MemDisk, laws};
use terms::MAX_COMPONENTS;

/// Calls each law.
pub(crate) fn hold() {
    names_hold();
    bodies_hold();
    texts_hold();
    graphs_hold();
    meanings_hold();
    files_hold();
    stores_hold();
}

fn names_hold() {
    terms::key_order();
    terms::orders_are_total();
    terms::facts_go_on();
    terms::environment_is_stated();
    terms::facts_are_told_apart();
    terms::puts_are_stated();
    terms::equals_are_one();
    terms::examples_of_facts();
    bytes_hold();
}

// For each greatest number of components.
fn bytes_hold() {
    for most in 0..=MAX_COMPONENTS {
        codec::spellings_of_events(most);
        codec::spellings_of_commits(most);
        codec::spellings_of_images(most);
    }
}

fn bodies_hold() {
    steptree::limits();
    steptree::along_one_list();
    steptree::ends_within_limits();
    steptree::keeps_to_its_sheet();
    steptree::growth_keeps();
    steptree::ends_once();
}

fn texts_hold() {
    syntax::grammar_limits();
    syntax::tokens_once();
    syntax::derived_may_come();
    syntax::one_derivation();
    syntax::read_without_fault();
    syntax::grammar_example();
}

fn graphs_hold() {
    graph::text_limit();
    graph::canonical_reads();
    graph::one_graph();
    graph::one_reading();
    graph::fitting();
    graph::prescribing();
    graph::reads_textual();
    graph::reads_without_fault();
    graph::canonical_example();
    graph::fitting_example();
    graph::graphs_cross();
}

fn meanings_hold() {
    instances::runs_are_counted();
    machine::fibonacci_numbers();
    machine::item_put_twice();
    machine::refused_examples();
    machine::meant_and_not_reached();
    machine::room_is_counted();
    machine::stays_within();
    machine::quiet_is_meaning();
    machine::stopped_is_not_clean();
    machine::one_end();
    machine::legal_lists_go_on();
    machine::legal_events_fit();
    machine::each_instance_can_go_on();
    machine::reached_goes_on();
    machine::reached_within();
    machine::reached_and_quiet();
    machine::unfinished_wait();
    machine::given_are_of_graph();
    machine::results_are_meant();
}

fn files_hold() {
    laws::crashes_again();
    laws::write_leaves();
    laws::cut_leaves();
    laws::touches_add_up();
    laws::failure_leaves();
    laws::reads_are_left();
    journal::one_meaning();
    journal::records_lead();
}

fn stores_hold() {
    sides::one_meaning_of_a_side();
    sides::sides_go_on();
    sides::one_item_each();
    vault::one_store();
    vault::stores_go_on::<MemDisk>();
    vault::half_a_commit();
    moves::acknowledged_stays::<MemDisk>();
    moves::for_every_schedule::<MemDisk>();
    moves::runs_are_moves::<MemDisk>();
}
