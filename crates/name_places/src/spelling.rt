//! Which names no new one may have.
ghost use Rattle.std.specs.Prelude.{◌≡◌, codes};
ghost use Rattle.std.specs.List.{list_any};
ghost use Rattle.tree_model.specs.Cases.{ends_in, is_among, is_bad_name, is_bad_unit};

/// The units of the longest name.
const LONGEST_NAME: usize = 255;

// Whether no name has this unit: one below the space, or one that a path or a pattern has a use for.
fn is_bad_unit(unit: u16) -> bool
    ensures { result ≡ is_bad_unit unit }
{
    unit < 0x20
        || unit == u16::from(b'"')
        || unit == u16::from(b'*')
        || unit == u16::from(b'/')
        || unit == u16::from(b':')
        || unit == u16::from(b'<')
        || unit == u16::from(b'>')
        || unit == u16::from(b'?')
        || unit == u16::from(b'\\')
        || unit == u16::from(b'|')
}

// Whether no name ends in this unit: a dot, as `.` and `..` do, or a space.
fn ends_no_name(unit: u16) -> bool
    ensures { result ≡ is_among (codes ". ") unit }
{
    unit == u16::from(b'.') || unit == u16::from(b' ')
}

// Whether a name ends in a dot or a space.
fn ends_badly(name: &[u16]) -> bool
    ensures { result ≡ ends_in (codes ". ") name.now }
{
    match name.split_last() {
        Some((last, _)) => ends_no_name(*last),
        None => false,
    }
}

// Whether a unit of the name is bad.
fn has_bad_unit(name: &[u16]) -> bool
    ensures { result ≡ list_any is_bad_unit name.now }
{
    'units: for unit in name {
        if is_bad_unit(*unit) {
            return true;
        }
    }
    false
}

/// Whether no new name may be so: it has more than 255 units, ends in a dot or a space, or has a unit that no name has.
pub fn is_bad_name(name: &[u16]) -> bool
    ensures { result ≡ is_bad_name name.now }
{
    name.len() > LONGEST_NAME || ends_badly(name) || has_bad_unit(name)
}
