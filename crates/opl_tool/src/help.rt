//! The words that calls have.
ghost use Rattle.std.specs.Prelude.{◌≡◌};
ghost use Rattle.opl_tool.specs.Help.{help_text};

/// A line for each command, as `help` prints it.
pub fn help_text() -> &'static [u8]
    ensures { result.now ≡ help_text }
{
    b"solve MODEL [DATA..] [--limit N] [--budget N] [--improving] [--default-search] [--certificate FILE]\ncheck MODEL [DATA..] --certificate FILE\nrun SCRIPT [--budget N] [--steps N]\nground MODEL [DATA..]\ngenerate KIND N SEED\nhelp\n"
}
