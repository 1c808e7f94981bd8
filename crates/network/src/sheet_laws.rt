//! What holds of sheets, networks and orders together: each function stands for the laws that its contract states.
//! They compute nothing; a caller cites them for their facts.
ghost use Rattle.network.specs.SheetLaws.{OrderIs, OrderNamesAll, WidthIsSmallest};
ghost use Rattle.network.specs.SheetLaws.{NetworkSheetWell, NetworkReturns, BytesTellApart};
ghost use Rattle.network.specs.SheetLaws.{SameCouplingsSameMeaning};
ghost use Rattle.network.specs.SheetLaws.{ReadLawful, ReadOrdered, ReadSameSheet, ReadSameBytes};

/// A list is accepted as an order of a network's stations exactly if it is one, and then it names every station.
pub fn accepted_list_is_order()
    ensures exact { OrderIs }
    ensures all { OrderNamesAll }
{}

/// The width of a station's field in a sheet is the smallest that serves.
pub fn width_is_smallest()
    ensures { WidthIsSmallest }
{}

/// A network and one of its orders that are written and read again come back the same.
pub fn written_network_returns()
    ensures well { NetworkSheetWell }
    ensures same { NetworkReturns }
{}

/// No two networks, and no two orders of one, are written as the same bytes.
pub fn bytes_tell_networks_apart()
    ensures { BytesTellApart }
{}

/// A sheet that is read is that of a lawful network and one of its orders, and these are written as the same bytes.
pub fn read_network_is_written_the_same()
    ensures lawful { ReadLawful }
    ensures ordered { ReadOrdered }
    ensures sheet { ReadSameSheet }
    ensures bytes { ReadSameBytes }
{}

/// A sheet network and a list network that were read from the same couplings have equal meanings.
pub fn same_couplings_same_meaning()
    ensures { SameCouplingsSameMeaning }
{}
