//! The three questions that every network answers, by one lawful meaning.
//! A network that is not shown to answer so cannot be one.
ghost use Rattle.std.specs.Prelude.{◌≡◌};
ghost use Rattle.network.specs.Net.{Net, Lawful, next_coupled};

/// A network of stations, some pairs of them coupled. Nothing here refuses or alters anything.
pub trait Network {
    ghost meaning: { Self → Net };

    ghost lawful: { (network : Self) → Lawful (meaning network) };

    /// The number of stations, 1 to 512.
    fn size(&self) -> u16
        ensures { result ≡ (meaning self.now).size };

    /// Whether two numbers are stations that form a coupling.
    fn coupled(&self, a: u16, b: u16) -> bool
        ensures { result ≡ (meaning self.now).coupled a b };

    /// The smallest station not below `from` that is coupled with `station`. It asks at most once for each station.
    fn next(&self, station: u16, from: u16) -> Option<u16>
        ensures { result ≡ next_coupled (meaning self.now) station from }
    {
        // By the project's rule a search loop that yields the found station by `break`.
        let size = self.size();
        let mut t = from;
        loop {
            if t >= size {
                break None;
            }
            if self.coupled(station, t) {
                break Some(t);
            }
            t += 1;
        }
    }
}
