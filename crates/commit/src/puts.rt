use crate::{Core, CoreError};
use disk::Disk;
use instances::runs_are_counted;
use terms::{Addr, Event, Put, Tag};
use vault::{VaultError, stores_go_on};

impl<D: Disk> Core<D> {
    ghost use Rattle.std.specs.Prelude.{◌≡◌, false, [], ◌∷◌, IfErr, OnOk};
    ghost use Rattle.terms.specs.declared.event.Event.TheVariants.{EnvItem, EnvTag};
    ghost use Rattle.terms.specs.declared.put.Put.TheVariants.{Item, Tag as Name};
    ghost use Rattle.machine.specs.Legal.{IsLegal};
    ghost use Rattle.machine.specs.Machine.{HasRoom, RefusesItem, RefusesTag};
    ghost use Rattle.commit.specs.Core.{facts, graph, is_halted};
    ghost use Rattle.commit.specs.Calls.{PutsItem, PutsTag};
    ghost use Rattle.commit.specs.Room.{GivesRoom, RefusesFirst};

    /// Puts an item of the environment.
    ///
    /// The causes of a refusal, in their order: `Halted`; no such collection; the wrong number of components; not a put
    /// of the environment in this graph; a fault stopped the store; the item is there already; `Full`. An error that does
    /// not halt leaves everything as it was.
    pub fn put_item(&mut self, addr: Addr, value: i64) -> Result<(), CoreError>
        ensures { PutsItem D.Disk self.old self.new addr value result }
    {
        stores_go_on::<D>();
        self.is_kept();
        let place = addr;
        match self.make_ready_for_item(place, value) {
            Ok(()) => self.commit_put(Event::EnvItem(addr, value)),
            Err(error) => Err(error),
        }
    }

    /// Puts a tag of the environment. The instances that it prescribes are ready then.
    ///
    /// The causes of a refusal, in their order: `Halted`; no such collection; the wrong number of components; not a put
    /// of the environment in this graph; a fault stopped the store; the tag is there already; `Full`. An error that does
    /// not halt leaves everything as it was.
    pub fn put_tag(&mut self, tag: Tag) -> Result<(), CoreError>
        ensures { PutsTag D.Disk self.old self.new tag result }
    {
        stores_go_on::<D>();
        self.is_kept();
        let name = tag;
        match self.make_ready_for_tag(name) {
            Ok(()) => self.commit_put(Event::EnvTag(tag)),
            Err(error) => Err(error),
        }
    }

    // Checks that the environment may put the item, and makes room for it.
    fn make_ready_for_item(&mut self, addr: Addr, value: i64) -> Result<(), CoreError>
        ensures working { OnOk result (is_halted self.old ≡ false) }
        ensures legal { OnOk result (IsLegal (graph self.new) (facts self.new) (EnvItem addr value)) }
        ensures room { OnOk result (HasRoom self.new.machine (Item addr value ∷ [])) }
        ensures refused { IfErr result (RefusesFirst self.old (RefusesItem (graph self.old) (facts self.old) addr) (EnvItem addr value)) }
        ensures same { GivesRoom self.old self.new }
    {
        runs_are_counted();
        if self.vault.is_halted() {
            return Err(CoreError::Store(VaultError::Halted));
        }
        let place = addr;
        self.machine.may_put_item(place)?;
        self.machine.make_room(&[Put::Item(addr, value)])?;
        Ok(())
    }

    // Checks that the environment may put the tag, and makes room for it.
    fn make_ready_for_tag(&mut self, tag: Tag) -> Result<(), CoreError>
        ensures working { OnOk result (is_halted self.old ≡ false) }
        ensures legal { OnOk result (IsLegal (graph self.new) (facts self.new) (EnvTag tag)) }
        ensures room { OnOk result (HasRoom self.new.machine (Name tag ∷ [])) }
        ensures refused { IfErr result (RefusesFirst self.old (RefusesTag (graph self.old) (facts self.old) tag) (EnvTag tag)) }
        ensures same { GivesRoom self.old self.new }
    {
        runs_are_counted();
        if self.vault.is_halted() {
            return Err(CoreError::Store(VaultError::Halted));
        }
        let name = tag;
        self.machine.may_put_tag(name)?;
        self.machine.make_room(&[Put::Tag(tag)])?;
        Ok(())
    }
}
