// Refusals that are equal, the texts of errors of imports, and dependencies and types that are resolved again.
use crate::graph_few_texts::{FewTexts, fault};
use crate::graph_shown::{put_dependency, target};
use crate::specifiers::url;
use graph_core::{Dependency, ModuleGraphError, Resolution, TypesDependency};
use import_records::{types_with_new_resolver, with_new_resolver};
use source_io::DefaultJsrUrlProvider;
use spec_base::{Boxed, Items, Position, PositionRange, Range, ResolveError, Text};
use std::alloc::Global;
use std::test::Fail;

// The range of a text in `file:///a/main.ts`.
fn range(alloc: Global) -> Result<Range, Fail> {
    let specifier = url(alloc, "file:///a/main.ts")?;
    let range = PositionRange {
        start: Position::new(0, 7),
        end: Position::new(0, 10),
    };
    Ok(Range {
        specifier,
        range,
        resolution_mode: None,
    })
}

// The text leads to this specifier.
fn found(alloc: Global, target: &str) -> Result<Resolution, Fail> {
    let range = range(alloc)?;
    let answer = Ok(url(alloc, target)?);
    Ok(Resolution::from_resolve_result(alloc, answer, "x", range)?)
}

// A resolver refuses this text by this message.
fn refused(alloc: Global, message: &str, text: &str) -> Result<Resolution, Fail> {
    let range = range(alloc)?;
    let answer = Err(ResolveError::Other(fault(alloc, message)?));
    Ok(Resolution::from_resolve_result(alloc, answer, text, range)?)
}

// Whether two refusals are equal, each of a message and a text.
fn are_equal(alloc: Global, one: (&str, &str), other: (&str, &str)) -> Result<bool, Fail> {
    let one = refused(alloc, one.0, one.1)?;
    let other = refused(alloc, other.0, other.1)?;
    Ok(one.err() == other.err())
}

#[test]
fn refusals_are_equal(rt: HostRuntime) -> Result<(), Fail> {
    let alloc = rt.alloc();
    assert!(rt; are_equal(alloc, ("Not mapped", "b"), ("Unknown", "b"))?);
    assert!(rt; !are_equal(alloc, ("Not mapped", "b"), ("Not mapped", "c"))?);
    Ok(())
}

// The error of a resolution as a walk finds it: of code, or of types.
fn walked(
    alloc: Global,
    resolution: &Resolution,
    is_types: bool,
) -> Result<Boxed<ModuleGraphError>, Fail> {
    let Some(error) = resolution.err() else {
        return Err(Fail::new("no refusal"));
    };
    let error = error.try_clone()?;
    let error = if is_types {
        ModuleGraphError::TypesResolutionError(error)
    } else {
        ModuleGraphError::ResolutionError(error)
    };
    Ok(Boxed::new(alloc, error)?)
}

// Whether an error of an import begins with a text, ends in its range, and is none in the place of a module.
fn is_error(alloc: Global, error: &ModuleGraphError, wanted: &str) -> Result<bool, Fail> {
    let ranged = error.to_string_with_range(alloc)?;
    let text = format!(in alloc; "{error}")?;
    let range = range(alloc)?;
    Ok(
        text.as_str() == wanted
            && ranged.as_str() == "Not mapped\n    at file:///a/main.ts:1:8"
            && error.maybe_range() == Some(&range)
            && error.as_module_error_kind().is_none(),
    )
}

fn is_walked(alloc: Global, is_types: bool, wanted: &str) -> Result<bool, Fail> {
    let refused = refused(alloc, "Not mapped", "b")?;
    let error = walked(alloc, &refused, is_types)?;
    is_error(alloc, error.get(), wanted)
}

#[test]
fn tells_refusals(rt: HostRuntime) -> Result<(), Fail> {
    let alloc = rt.alloc();
    assert!(rt; is_walked(alloc, false, "Not mapped")?);
    assert!(rt; is_walked(alloc, true, "Failed resolving types. Not mapped")?);
    Ok(())
}

// A dependency without imports, whose code was resolved so.
fn dependency(
    alloc: Global,
    maybe_code: Resolution,
    maybe_type: Resolution,
) -> Result<Dependency, Fail> {
    Ok(Dependency {
        maybe_code,
        maybe_type,
        maybe_deno_types_specifier: Some(Text::from_str(alloc, "./b.d.ts")?),
        is_dynamic: true,
        maybe_attribute_type: Some(Text::from_str(alloc, "json")?),
        imports: Items::new(alloc),
    })
}

// The dependency of a text, resolved again.
fn renewed(
    alloc: Global,
    dependency: &Dependency,
    text: &str,
    resolver: Option<&FewTexts>,
) -> Result<String, Fail> {
    let urls = DefaultJsrUrlProvider::new(alloc)?;
    let renewed = with_new_resolver(alloc, text, dependency, &urls, resolver)?;
    let mut shown = String::new(alloc);
    put_dependency(alloc, &mut shown, text, &renewed)?;
    Ok(shown)
}

// Whether the dependency of a text, whose code was resolved and its types where wanted, is this one when it is resolved again.
fn is_renewed(
    alloc: Global,
    text: &str,
    code: Resolution,
    types: Resolution,
    resolver: Option<&FewTexts>,
    wanted: &str,
) -> Result<bool, Fail> {
    let dependency = dependency(alloc, code, types)?;
    Ok(renewed(alloc, &dependency, text, resolver)?.as_str() == wanted)
}

// Code and types are resolved by their own texts. A target may become an error, and an error a target; what wasn't resolved stays so.
#[test]
fn dependencies_are_resolved_again(rt: HostRuntime) -> Result<(), Fail> {
    let alloc = rt.alloc();
    let code = found(alloc, "file:///wrong.ts")?;
    let types = found(alloc, "file:///wrong.ts")?;
    let wanted = "./b.ts - file:///a/b.ts file:///a/b.d.ts ./b.d.ts 0 dynamic as json";
    assert!(rt; is_renewed(alloc, "./b.ts", code, types, None, wanted)?);
    let code = found(alloc, "file:///wrong.ts")?;
    let wanted = "fault - Refused - ./b.d.ts 0 dynamic as json";
    assert!(rt;
        is_renewed(
            alloc,
            "fault",
            code,
            Resolution::None,
            Some(&FewTexts),
            wanted
        )?
    );
    let code = refused(alloc, "Refused", "mapped")?;
    let wanted = "mapped - file:///mapped.js - ./b.d.ts 0 dynamic as json";
    assert!(rt;
        is_renewed(
            alloc,
            "mapped",
            code,
            Resolution::None,
            Some(&FewTexts),
            wanted
        )?
    );
    Ok(())
}

// Where types stand that are resolved again.
fn types_again(alloc: Global, types: &TypesDependency) -> Result<String, Fail> {
    let urls = DefaultJsrUrlProvider::new(alloc)?;
    let renewed = types_with_new_resolver(alloc, types, &urls, None::<&FewTexts>)?;
    let target = target(alloc, &renewed.dependency)?;
    let is_same = renewed.dependency.maybe_range() == types.dependency.maybe_range();
    Ok(format!(in alloc; "{} {target} {is_same}", renewed.specifier)?)
}

#[test]
fn types_are_resolved_again(rt: HostRuntime) -> Result<(), Fail> {
    let types = TypesDependency {
        specifier: Text::from_str(rt.alloc(), "./main.d.ts")?,
        dependency: found(rt.alloc(), "file:///wrong.ts")?,
    };
    let text = types_again(rt.alloc(), &types)?;
    assert!(rt; text.as_str() == "./main.d.ts file:///a/main.d.ts true");
    Ok(())
}
