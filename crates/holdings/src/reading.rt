//! What an image lists, read from its bytes into the maps.
use crate::Holdings;
use codec::{CodecError, ListReader, image_is_spelled, read_fault, spellings_of_images};
use graph::Graph;
use std::alloc::{AllocError, Global};
use terms::{Addr, Inst, MAX_COMPONENTS, Producer, Tag};

impl Holdings {
    ghost use Rattle.std.specs.Prelude.{◌≡◌, Err, IfErr, IfOk, IfSome, Ok};
    ghost use Rattle.std.specs.FinMap.{empty};
    ghost use Rattle.terms.specs.declared.key.TheConstants.{MAX_COMPONENTS};
    ghost use Rattle.codec.specs.Reading.{decoded_image, image_fault};
    ghost use Rattle.holdings.specs.Holdings.{AreWithin, IsFor, image_of, HavePutNumbers};
    ghost use Rattle.holdings.specs.Reading.{
      FaultIsHeld,
      FindsImage,
      InstancesAreDone,
      ItemsAreHeld,
      NoInstancesAreDone,
      NoItemsAreHeld,
      NoTagsAreHeld,
      NoneIsWithin,
      TagsAreHeld,
    };

    /// What the image that these bytes spell lists. It returns `None` if they spell no image, or if a name of it is of no collection or step of the
    /// graph. An error says that memory was refused.
    pub fn of_image(alloc: Global, graph: &Graph, bytes: &[u8]) -> Result<Option<Self>, AllocError>
        ensures image { IfOk result (FindsImage graph.now bytes.now) }
        ensures numbered { IfOk result (λ found. IfSome found (λ h. HavePutNumbers h)) }
        ensures graph { IfOk result (λ found. IfSome found (IsFor graph.now)) }
    {
        image_is_spelled(bytes, MAX_COMPONENTS);
        spellings_of_images(MAX_COMPONENTS);
        match Holdings::read(alloc, graph, bytes) {
            Ok(holdings) => Ok(Some(holdings)),
            Err(error) => match error {
                CodecError::NoMemory => Err(AllocError),
                _ => Ok(None),
            },
        }
    }

    // Reads an image. `Range` if a name is of no collection or step of the graph.
    fn read(alloc: Global, graph: &Graph, bytes: &[u8]) -> Result<Self, CodecError>
        ensures image { IfOk result (λ h. decoded_image MAX_COMPONENTS bytes.now ≡ Ok (image_of h)) }
        ensures graph { IfOk result (IsFor graph.now) }
        ensures within { IfOk result (λ h. AreWithin graph.now (image_of h)) }
        ensures none { IfErr result (NoneIsWithin graph.now bytes.now) }
    {
        image_is_spelled(bytes, MAX_COMPONENTS);
        let mut holdings = Holdings::new(alloc, graph)?;
        let rest = holdings.read_stop(bytes)?;
        let rest = holdings.read_items(graph.item_count(), rest)?;
        let rest = holdings.read_tags(graph.tag_count(), rest)?;
        let rest = holdings.read_done(graph.step_count(), rest)?;
        if !rest.is_empty() {
            return Err(CodecError::Trailing);
        }
        Ok(holdings)
    }

    // Reads the instance at fault with which these bytes begin, if there is one, and returns the bytes after it.
    fn read_stop<'a>(&mut self, bytes: &'a [u8]) -> Result<&'a [u8], CodecError>
        ensures held { IfOk result (λ rest. FaultIsHeld bytes.now self.old self.new rest.now) }
        ensures none { IfErr result (λ error. image_fault MAX_COMPONENTS bytes.now ≡ Err error) }
    {
        match read_fault(bytes, MAX_COMPONENTS) {
            Ok((fault, rest)) => {
                self.stop(fault);
                Ok(rest)
            }
            Err(error) => Err(error),
        }
    }

    // Reads the list of items with which these bytes begin, where none is held, and returns the bytes after it. There are `count` collections.
    fn read_items<'a>(&mut self, count: usize, bytes: &'a [u8]) -> Result<&'a [u8], CodecError>
        requires empty { self.old.items ≡ empty }
        requires counted { count ≡ self.old.counts.items }
        ensures held { IfOk result (λ rest. ItemsAreHeld count bytes.now self.old self.new rest.now) }
        ensures none { IfErr result (NoItemsAreHeld count bytes.now) }
    {
        let mut list = ListReader::<(Addr, i64, Producer)>::new(bytes, MAX_COMPONENTS)?;
        while let Some((address, value, producer)) = list.next()? {
            if count <= address.collection.0 as usize {
                return Err(CodecError::Range);
            }
            let _new = self.put_item(address, value, producer)?;
        }
        Ok(list.rest())
    }

    // Reads the list of tags, where none is held.
    fn read_tags<'a>(&mut self, count: usize, bytes: &'a [u8]) -> Result<&'a [u8], CodecError>
        requires empty { self.old.tags ≡ empty }
        requires counted { count ≡ self.old.counts.tags }
        ensures held { IfOk result (λ rest. TagsAreHeld count bytes.now self.old self.new rest.now) }
        ensures none { IfErr result (NoTagsAreHeld count bytes.now) }
    {
        let mut list = ListReader::<(Tag, bool)>::new(bytes, MAX_COMPONENTS)?;
        while let Some((name, mark)) = list.next()? {
            if count <= name.collection.0 as usize {
                return Err(CodecError::Range);
            }
            let _new = self.put_tag(name, mark)?;
        }
        Ok(list.rest())
    }

    // Reads the list of done instances, where none is done. There are `count` steps.
    fn read_done<'a>(&mut self, count: usize, bytes: &'a [u8]) -> Result<&'a [u8], CodecError>
        requires empty { self.old.done ≡ empty }
        requires counted { count ≡ self.old.counts.steps }
        ensures held { IfOk result (λ rest. InstancesAreDone count bytes.now self.old self.new rest.now) }
        ensures none { IfErr result (NoInstancesAreDone count bytes.now) }
    {
        let mut list = ListReader::<Inst>::new(bytes, MAX_COMPONENTS)?;
        while let Some(instance) = list.next()? {
            if count <= instance.collection.0 as usize {
                return Err(CodecError::Range);
            }
            let _new = self.end(instance)?;
        }
        Ok(list.rest())
    }
}
