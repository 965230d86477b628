ghost use Rattle.std.specs.Prelude.{◌≡◌, ◌≤◌, OnOk, true};
ghost use Rattle.reply_facts.specs.Report.{about_of};
ghost use Rattle.sweep.specs.Images.{HasImageRoom, image_key, images_about, no_images, with_image};
ghost use Rattle.sweep.specs.Order.{AreInOrder, found_at};

use crate::port_list::{OfPort, item_at, put};
use crate::question::Question;
use fact_store::Context;
use page_list::PageList;
use smp_bytes::{Guid, PortNum};
use std::alloc::{AllocError, Global};
use std::marker::Model;

/// The 64 bytes of an attribute in a reply: PortInfo of a port, or SwitchInfo of a switch. The port of a SwitchInfo
/// is 0.
#[derive(Clone, Copy, Debug, PartialEq, Eq)]
pub struct SeenImage {
    pub guid: Guid,
    pub port: PortNum,
    pub bytes: [u8; 64],
}

impl OfPort for SeenImage {
    ghost use Rattle.sweep.specs.Images.{image_key};

    ghost key = { image_key };

    fn key(&self) -> (Guid, PortNum) {
        (self.guid, self.port)
    }
}

/// The PortInfo of ports and the SwitchInfo of switches that a sweep keeps. The sweep keeps none unless it was asked
/// to. Contracts see these images, and the numbers of further images of each kind for which there is memory.
#[derive(Drop)]
pub(crate) struct Images {
    keeps: bool,
    /// PortInfo of ports.
    ports: PageList<SeenImage>,
    /// SwitchInfo of switches.
    switches: PageList<SeenImage>,
}

impl Model for Images {
    ghost use Rattle.sweep.specs.Images.{AreImages, ImageTable};

    ghost Value = { ImageTable };

    ghost view = { λ a. record {
      kept = record { keeps = a.keeps; ports = a.ports.items; switches = a.switches.items };
      port_room = a.ports.room;
      switch_room = a.switches.room;
    } };

    ghost invariant = { λ a. AreImages
        (record { keeps = a.keeps; ports = a.ports.items; switches = a.switches.items }) };
}

impl Images {
    /// Creates an empty collection, which keeps images if `keeps`. Does not allocate.
    pub(crate) fn new(alloc: Global, keeps: bool) -> Self
        ensures { result.kept ≡ no_images keeps }
    {
        Images {
            keeps,
            ports: PageList::new(alloc),
            switches: PageList::new(alloc),
        }
    }

    /// Reserves memory for one more image of each kind if images are kept, and otherwise does nothing.
    pub(crate) fn reserve(&mut self) -> Result<(), AllocError>
        ensures kept { self.new.kept ≡ self.old.kept }
        ensures room { OnOk result (HasImageRoom self.new) }
    {
        if self.keeps {
            self.ports.reserve(1)?;
            self.switches.reserve(1)?;
        }
        Ok(())
    }

    /// Adds `bytes`, the attribute in a reply to `question`, as the image of the port or switch that `context` is
    /// about, if images are kept and it has none yet. Does not allocate.
    pub(crate) fn put(&mut self, question: Question, context: &Context, bytes: &[u8; 64])
        requires { HasImageRoom self.old }
        ensures { self.new.kept
            ≡ images_about self.old.kept (about_of context.now) bytes.now question }
    {
        let Context::About(guid) = *context else {
            return;
        };
        match question {
            Question::Port(port) => put_image(
                self.keeps,
                &mut self.ports,
                SeenImage {
                    guid,
                    port,
                    bytes: *bytes,
                },
            ),
            Question::Switch => put_image(
                self.keeps,
                &mut self.switches,
                SeenImage {
                    guid,
                    port: PortNum::MANAGEMENT,
                    bytes: *bytes,
                },
            ),
            Question::Node | Question::Manager(..) => {}
        }
    }

    /// Returns the PortInfo of `port` of the node `guid`, or `None` if it is not kept. Does a binary search.
    pub(crate) fn of_port(&self, guid: Guid, port: PortNum) -> Option<SeenImage>
        ensures { result ≡ found_at image_key guid port self.now.kept.ports }
    {
        item_at(&self.ports, guid, port)
    }

    /// Returns the SwitchInfo of the switch `guid`, or `None` if this SwitchInfo is not kept. Does a binary search.
    pub(crate) fn of_switch(&self, guid: Guid) -> Option<SeenImage>
        ensures { result ≡ found_at image_key guid 0 self.now.kept.switches }
    {
        item_at(&self.switches, guid, PortNum::MANAGEMENT)
    }
}

/// Inserts `image` in its order if `keeps`, unless there is an image with the same GUID and port already.
fn put_image(keeps: bool, images: &mut PageList<SeenImage>, image: SeenImage)
    requires order { AreInOrder image_key images.old.items }
    requires room { keeps ≡ true → 1 ≤ images.old.room }
    ensures { images.new.items ≡ with_image keeps image images.old.items }
{
    if keeps {
        put(images, image);
    }
}
