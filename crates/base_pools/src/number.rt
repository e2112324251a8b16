// A choice's flag, or 0.
ghost use Rattle.std.specs.Prelude.{◌≡◌, get_or};

// A choice's optional flag; past the list of flags it is 0, mandatory.
pub fn flag_of(optional: &[u8], choice: usize) -> u8
    ensures { result ≡ get_or optional.now choice 0 }
{
    optional.get(choice).copied().unwrap_or(0)
}
