// The table that answers for an analyzer.
use json_forms::info_from_json;
use media_types::MediaType;
use module_info::{ModuleAnalyzer, ModuleInfo, TableAnalyzer};
use serde_json::Value;
use shared_items::SharedItems;
use spec_base::{Fault, Items, ModuleSpecifier, Refusal, Text};
use std::alloc::Global;
use std::test::Fail;

type Answers = Items<(ModuleSpecifier, Result<ModuleInfo, Fault>)>;

// An info with one import.
const ONE_IMPORT: &str =
    r#"{"dependencies":[{"type":"static","kind":"import","specifier":"./b.js","specifierRange":[[0,7],[0,15]]}]}"#;

fn put_info(alloc: Global, answers: &mut Answers, specifier: &str, json: &str) -> Result<(), Fail> {
    let specifier = ModuleSpecifier::parse(alloc, specifier)?;
    let value = Value::from_slice(alloc, json.as_bytes())?;
    match info_from_json(alloc, &value) {
        Ok(info) => Ok(answers.push((specifier, Ok(info)))?),
        Err(_) => Err(Fail::new("no info")),
    }
}

fn put_fault(alloc: Global, answers: &mut Answers, specifier: &str) -> Result<(), Fail> {
    let specifier = ModuleSpecifier::parse(alloc, specifier)?;
    let class = Text::from_str(alloc, "SyntaxError")?;
    let message = Text::from_str(alloc, "Unexpected end")?;
    Ok(answers.push((specifier, Err(Fault { class, message })))?)
}

// Two answers for `a.js`, of which the first counts, and a fault for `b.js`.
fn table(alloc: Global) -> Result<TableAnalyzer, Fail> {
    let mut answers = Items::new(alloc);
    put_info(alloc, &mut answers, "file:///a.js", ONE_IMPORT)?;
    put_fault(alloc, &mut answers, "file:///b.js")?;
    put_info(alloc, &mut answers, "file:///a.js", "{}")?;
    let answers = SharedItems::new(answers.into_vec())?;
    Ok(TableAnalyzer::new(alloc, answers)?)
}

// Whether an answer has this number of imports, or is a fault of this class.
fn is_told(
    alloc: Global,
    answer: &Result<ModuleInfo, Refusal<Fault>>,
    want: &str,
) -> Result<bool, Fail> {
    match answer {
        Ok(info) => Ok(format!(in alloc; "{}", info.dependencies.len())?.as_str() == want),
        Err(Refusal::Is(fault)) => Ok(fault.class.as_str() == want),
        Err(Refusal::Memory) => Err(Fail::new("no memory")),
    }
}

fn answers(alloc: Global, table: &TableAnalyzer, text: &str, want: &str) -> Result<bool, Fail> {
    let specifier = ModuleSpecifier::parse(alloc, text)?;
    let answer = table.analyze(alloc, &specifier, "", MediaType::JavaScript);
    let is_told = is_told(alloc, &answer, want);
    drop(answer);
    is_told
}

#[test]
fn table_answers(rt: HostRuntime) -> Result<(), Fail> {
    let table = table(rt.alloc())?;
    assert!(rt; answers(rt.alloc(), &table, "file:///a.js", "1")?);
    assert!(rt; answers(rt.alloc(), &table, "file:///b.js", "SyntaxError")?);
    assert!(rt; answers(rt.alloc(), &table, "file:///c.js", "0")?);
    Ok(())
}
