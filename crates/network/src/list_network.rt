//! A network that stands on two neighbour lists, as they were lent.
//! It holds no copy of them; its questions are answered by the lists themselves.
ghost use Rattle.std.specs.Prelude.{◌≡◌, false, [], ◌∷◌, is_some};
ghost use Rattle.network.specs.Lists.{list_net, lists_fault};
ghost use Rattle.network.specs.ListLaws.{list_lawful};

use crate::name_lists::{NameLists, RisingLists};
use crate::net::Network;

// Two lent slices are the rule: a network keeps no copy of what it was read from.

/// A network over neighbour lists. Station `s` has the names from `starts[s]` up to, without, `starts[s + 1]`.
#[derive(Drop)]
pub struct ListNetwork<'a> {
    pub(crate) lists: RisingLists<'a>,
    ghost faultless: { is_some (lists_fault lists.lists.starts.now lists.lists.names.now) ≡ false },
}

static STARTS: [u32; 2] = [0, 0];

static NAMES: [u16; 0] = [];

impl<'a> ListNetwork<'a> {
    ghost use Rattle.network.specs.ListView.{starts_in, names_in};

    /// A place that holds one lone station, until a reading into it is accepted.
    pub fn lone() -> ListNetwork<'a>
        ensures starts { starts_in result ≡ 0 ∷ 0 ∷ [] }
        ensures names { names_in result ≡ [] }
    {
        let lists = NameLists {
            starts: &STARTS,
            names: &NAMES,
        };
        ListNetwork {
            lists: RisingLists { lists },
        }
    }
}

impl<'a> Network for ListNetwork<'a> {
    ghost meaning = { λ network. list_net network.lists.lists.starts.now network.lists.lists.names.now };

    ghost lawful = { λ network. list_lawful network.lists.lists.starts.now network.lists.lists.names.now network.faultless };

    fn size(&self) -> u16 {
        self.lists.size()
    }

    // The search takes as many steps as the list of `a` can be halved.
    fn coupled(&self, a: u16, b: u16) -> bool {
        let size = self.size();
        a < size && b < size && self.lists.is_named(a, b)
    }
}
