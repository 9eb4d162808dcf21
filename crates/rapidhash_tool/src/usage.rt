//! The help text.

ghost use Rattle.std.specs.Prelude.{◌≡◌};
ghost use Rattle.rapidhash_tool.specs.Help.{help_text};

/// Returns the text of `--help`.
#[tactic(auto, unfolding(crate::specs::Help::help_text, crate::specs::Help::lines_of))]
pub fn help() -> &'static str
    ensures { result.now ≡ help_text }
{
    "Usage: rapidhash <version> [opts] [filename]
<version>
  --v1    Use v1 hashing algorithm (no streaming)
  --v2.0  Use v2.0 hashing algorithm (no streaming)
  --v2.1  Use v2.1 hashing algorithm (no streaming)
  --v2.2  Use v2.2 hashing algorithm (no streaming)
  --v3    Use v3 hashing algorithm (default)
  --v3-micro  Use v3 micro hashing algorithm
  --v3-nano   Use v3 nano hashing algorithm
[opts]
  --protected  Use the protected variant (default: false)
[filename]
  Providing a filename is optional and will read a file directly. Otherwise input
  is read from stdin.

Note that only some rapidhash versions support streaming, others require
buffering the entire input in memory.

Docs: https://github.com/hoxxep/rapidhash?tab=readme-ov-file#cli
"
}
