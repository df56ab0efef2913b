//! Sources that a shelf brings by their names, and takes back.
ghost use Rattle.std.specs.Prelude.{◌<◌, length, string_bytes, MatchResult};
ghost use Rattle.ride_ports.specs.Contents.{given_back};
ghost use Rattle.dispatcher.specs.Shelves.{shelved};
ghost use Rattle.dispatcher.specs.inner.Handing.{Brings, Misses, TakesBack};

use ride_ports::{Failed, Shelf, Source};

/// Returns the source of a name, of which no byte is read yet.
pub fn bring<H: Shelf>(shelf: &mut H, name: String) -> Result<H::Src, Failed>
    requires { length (H.asked shelf.old) < 8 }
    ensures { MatchResult result
        (λ source. Brings (string_bytes name) (H.Src.left source) (H.Src.faults source)
        (shelved H.contents H.asked H.brought H.back H.faults shelf.old)
        (shelved H.contents H.asked H.brought H.back H.faults shelf.new))
        (λ _. Misses (string_bytes name)
        (shelved H.contents H.asked H.brought H.back H.faults shelf.old)
        (shelved H.contents H.asked H.brought H.back H.faults shelf.new)) }
{
    shelf.bring(name)
}

/// Gives a source back.
pub fn give_back<H: Shelf>(shelf: &mut H, source: H::Src)
    requires { length (H.back shelf.old) < 8 }
    ensures { TakesBack (given_back (H.Src.faults source) (H.Src.left source))
        (shelved H.contents H.asked H.brought H.back H.faults shelf.old)
        (shelved H.contents H.asked H.brought H.back H.faults shelf.new) }
{
    shelf.give_back(source);
}
