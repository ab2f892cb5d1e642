//! The names of the data files of a call.
ghost use Rattle.std.specs.Prelude.{◌≡◌, [], get_or, map};

/// The name of the data file with this number among them.
pub fn name_at<'a>(names: &[&'a str], number: usize) -> &'a str
    ensures { result.now ≡ get_or (map (λ name. name.now) names.now) number [] }
{
    match names.get(number) {
        Some(name) => *name,
        None => "",
    }
}
