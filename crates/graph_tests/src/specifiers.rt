// Specifiers of texts.
use spec_base::ModuleSpecifier;
use std::alloc::Global;
use std::test::Fail;

/// The specifier of a text that is one.
pub fn url(alloc: Global, text: &str) -> Result<ModuleSpecifier, Fail> {
    let url = ModuleSpecifier::parse(alloc, text)?;
    Ok(url)
}
