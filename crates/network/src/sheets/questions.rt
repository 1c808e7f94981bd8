//! The questions that a network on a packed sheet answers.
//! Couplings are found in the packed fields themselves, by binary search.
ghost use Rattle.std.specs.Prelude.{◌≡◌, ◌+◌, ◌*◌, ◌^◌, ◌<◌};
ghost use Rattle.network.specs.Parts.{pair_key};
ghost use Rattle.network.specs.SheetMeaning.{standing-lawful};
ghost use Rattle.network.specs.SheetView.{sheet_in};
ghost use Rattle.network.specs.Sheets.{has_pair, sheet_net};

use crate::bit_fields::field_of;
use crate::net::Network;
use crate::sheets::SheetNetwork;

impl SheetNetwork<'_> {
    // The coupling `k` as one number, which rises with `k`. Compared by `cmp`, as pairs or as numbers, a search takes a tenth longer or more.
    fn key_at(&self, k: u32) -> u32
        requires { k < 2 ^ 17 }
        ensures { result ≡ pair_key self.now.bytes.now self.now.counts.bits k }
    {
        let bits = self.counts.bits;
        let at = self.counts.place(2 * k);
        field_of(self.bytes, at, bits) * 512 + field_of(self.bytes, at + bits, bits)
    }

    // Whether the sheet has the coupling. It halves the couplings in question at each turn:
    // by hand, since they lie packed in the bytes, and there is no slice of them that a library's search could go over.
    fn has_pair(&self, larger: u32, smaller: u32) -> bool
        requires { (larger < 512) × (smaller < 512) }
        ensures { result ≡ has_pair (sheet_in self.now).couplings larger smaller }
    {
        let wanted = larger * 512 + smaller;
        let mut low = 0;
        let mut high = self.counts.couplings;
        while low < high {
            let middle = low + (high - low) / 2;
            let key = self.key_at(middle);
            if key == wanted {
                return true;
            }
            if key < wanted {
                low = middle + 1;
            } else {
                high = middle;
            }
        }
        false
    }
}

impl<'a> Network for SheetNetwork<'a> {
    ghost meaning = { λ network. sheet_net (sheet_in network) };

    ghost lawful = { λ network. standing-lawful network.bytes.now network.counts.stations network.counts.couplings network.counts.some network.counts.few };

    fn size(&self) -> u16 {
        self.counts.stations as u16
    }

    fn coupled(&self, a: u16, b: u16) -> bool {
        let larger = a.max(b) as u32;
        let smaller = a.min(b) as u32;
        if larger >= self.counts.stations || larger == smaller {
            return false;
        }
        self.has_pair(larger, smaller)
    }
}
