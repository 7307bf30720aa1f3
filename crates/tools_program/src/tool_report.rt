// What a tool says of a graph.
ghost use Rattle.std.specs.Prelude.{◌≡◌, string_bytes};
ghost use Rattle.tools_program.specs.Reports.{said};

use spec_base::Items;

/// What a tool says of a graph: the bytes that are written, and whether they are a yes.
#[derive(Drop)]
pub struct ToolReport {
    pub bytes: Items<u8>,
    pub is_yes: bool,
}

/// A report that is a text.
pub(crate) fn said(text: String, is_yes: bool) -> ToolReport
    ensures { result ≡ said (string_bytes text) is_yes }
{
    ToolReport {
        bytes: Items::from(text.into_bytes()),
        is_yes,
    }
}
