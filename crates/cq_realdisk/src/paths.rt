// The paths that are open.
ghost use Rattle.std.specs.Prelude.{◌≡◌, string_bytes};
ghost use Rattle.std.specs.Str.{bytes_eq};
ghost use Rattle.cq_realdisk.specs.Paths.{has_path, other_paths};

/// Whether these are one path, byte by byte.
fn is(text: &String, path: &str) -> bool
    ensures { result ≡ bytes_eq (string_bytes text.now) path.now }
{
    text.as_str() == path
}

/// Whether a path is open.
pub(crate) fn has(paths: &[String], path: &str) -> bool
    ensures { result ≡ has_path paths.now path.now }
{
    paths.iter().any(|text| is(text, path))
}

/// Takes a path out.
pub(crate) fn forget(paths: &mut Vec<String>, path: &str)
    ensures { paths.new.items ≡ other_paths paths.old.items path.now }
{
    paths.retain(|text| !is(text, path));
}
