ghost use Rattle.std.specs.Prelude.{◌≡◌};
ghost use Rattle.source.specs.Books.{entry_of};

// The entry of a curve: entry k is curve k, and entries from the 65th on are ignored.
pub fn entry<T: Copy>(entries: &[T], curve: u8) -> Option<T>
    ensures { result ≡ entry_of entries.now curve }
{
    if curve < 64 {
        entries.get(usize::from(curve)).copied()
    } else {
        None
    }
}
