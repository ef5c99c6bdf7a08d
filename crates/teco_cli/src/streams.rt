//! The names of the program's own streams.
ghost use Rattle.std.specs.Prelude.{◌≡◌};
ghost use Rattle.teco_cli.specs.StreamNames.{is_standard_input as names_standard_input, is_standard_output as names_standard_output};

/// Whether the file of this name is the program's own standard input.
pub fn is_standard_input(name: &str) -> bool
    ensures { result ≡ names_standard_input name.now }
{
    matches!(name, "-" | "/dev/stdin" | "/dev/fd/0" | "/proc/self/fd/0")
}

/// Whether the file of this name is the program's own standard output.
pub fn is_standard_output(name: &str) -> bool
    ensures { result ≡ names_standard_output name.now }
{
    matches!(name, "-" | "/dev/stdout" | "/dev/fd/1" | "/proc/self/fd/1")
}
