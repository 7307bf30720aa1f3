// The modules of a generated world, one after the other.
ghost use Rattle.std.specs.Prelude.{◌≡◌, ◌<◌, ◌++◌, IfOk, OnOk};
ghost use Rattle.generated_world.specs.Modules.{import_at, info_of, module_answer, redirects_of};
ghost use Rattle.generated_world.specs.Generation.{all_modules, begun, begun_at, drawing_of, with_draw, with_module};

use crate::draws::{drawn, next_state};
use crate::module_urls::{import_text, is_renamed, module_url, name_of, renamed_url};
use module_info::{
    DependencyDescriptor, ImportAttributes, ModuleInfo, StaticDependencyDescriptor,
    StaticDependencyKind,
};
use source_io::{Answer, LoadResponse, Purpose};
use spec_base::{Bytes, Fault, Items, ModuleSpecifier, Position, PositionRange};
use std::alloc::{AllocError, Global};

/// The imports of a module as far as they are drawn, and the generator's state.
#[derive(Drop)]
pub struct Drawing {
    pub imports: Items<DependencyDescriptor>,
    pub state: u32,
}

/// What a loader and an analyzer answer about the modules so far, and the generator's state.
#[derive(Drop)]
pub struct Generation {
    pub answers: Items<(ModuleSpecifier, Purpose, Answer)>,
    pub infos: Items<(ModuleSpecifier, Result<ModuleInfo, Fault>)>,
    pub state: u32,
}

// The import on a line of the module of a number.
fn import_at(alloc: Global, line: usize, number: u32) -> Result<DependencyDescriptor, AllocError>
    ensures { IfOk result (λ d. d ≡ import_at line number) }
{
    let specifier = import_text(alloc, number)?;
    Ok(DependencyDescriptor::Static(StaticDependencyDescriptor {
        kind: StaticDependencyKind::Import,
        types_specifier: None,
        specifier,
        specifier_range: PositionRange {
            start: Position { line, character: 0 },
            end: Position { line, character: 1 },
        },
        import_attributes: ImportAttributes::None,
        is_side_effect: false,
    }))
}

impl Drawing {
    // The module of a number imports the next one, if there is one.
    fn begin(alloc: Global, count: u32, number: u32, state: u32) -> Result<Drawing, AllocError>
        requires { number < count }
        ensures { IfOk result (λ drawing. drawing ≡ begun_at count number state) }
    {
        let mut imports = Items::new(alloc);
        if number + 1 < count {
            imports.push(import_at(alloc, 0, number + 1)?)?;
        }
        Ok(Drawing {
            imports,
            state: next_state(state),
        })
    }

    // Draws one more import among so many modules, at least one.
    fn draw(&mut self, alloc: Global, count: u32) -> Result<(), AllocError>
        requires { 0 < count }
        ensures { OnOk result (self.new ≡ with_draw count self.old) }
    {
        let state = next_state(self.state);
        let import = import_at(alloc, self.imports.len(), drawn(state) % count)?;
        self.imports.push(import)?;
        self.state = state;
        Ok(())
    }
}

// The imports of the module of a number, and the state after them.
#[tactic(auto, unfolding(crate::specs::Generation::after_draws))]
fn drawing_of(alloc: Global, count: u32, number: u32, state: u32) -> Result<Drawing, AllocError>
    requires { number < count }
    ensures { IfOk result (λ drawing. drawing ≡ drawing_of count number state) }
{
    let mut drawing = Drawing::begin(alloc, count, number, state)?;
    let more = drawn(drawing.state) % 4;
    for _ in 0..more {
        drawing.draw(alloc, count)?;
    }
    Ok(drawing)
}

// The answer that the module of a number, whose text is its number, is under a name.
fn module_answer(
    alloc: Global,
    number: u32,
    specifier: ModuleSpecifier,
) -> Result<Answer, AllocError>
    ensures { IfOk result (λ answer. answer ≡ module_answer number specifier) }
{
    let text = format!(in alloc; "{number}")?;
    let content = Bytes::from_slice(alloc, text.as_str().as_bytes())?;
    Ok(Answer::Load(Ok(Some(LoadResponse::Module {
        content,
        mtime: None,
        specifier,
        maybe_headers: None,
    }))))
}

// The info of a module that has these imports.
fn info_of(alloc: Global, imports: Items<DependencyDescriptor>) -> ModuleInfo
    ensures { result ≡ info_of imports }
{
    let mut info = ModuleInfo::empty(alloc);
    info.dependencies = imports;
    info
}

impl Generation {
    // Nothing is generated yet.
    fn begin(alloc: Global, state: u32) -> Generation
        ensures { result ≡ begun state }
    {
        Generation {
            answers: Items::new(alloc),
            infos: Items::new(alloc),
            state,
        }
    }

    // Adds the redirect to the module of a number, if there is one.
    fn push_redirect(&mut self, alloc: Global, number: u32) -> Result<(), AllocError>
        ensures { OnOk result
            (self.new ≡ record self.old { answers = self.old.answers ++ redirects_of number }) }
    {
        if !is_renamed(number) {
            return Ok(());
        }
        let url = module_url(alloc, number)?;
        let specifier = renamed_url(alloc, number)?;
        let redirect = Answer::Load(Ok(Some(LoadResponse::Redirect { specifier })));
        self.answers.push((url, Purpose::LoadUse, redirect))
    }

    // Adds the module of a number, of so many.
    fn push_module(&mut self, alloc: Global, count: u32, number: u32) -> Result<(), AllocError>
        requires { number < count }
        ensures { OnOk result (self.new ≡ with_module count number self.old) }
    {
        self.push_redirect(alloc, number)?;
        let name = name_of(alloc, number)?;
        let answer = module_answer(alloc, number, name.clone()?)?;
        self.answers
            .push((name.clone()?, Purpose::LoadUse, answer))?;
        let Drawing { imports, state } = drawing_of(alloc, count, number, self.state)?;
        self.infos.push((name, Ok(info_of(alloc, imports))))?;
        self.state = state;
        Ok(())
    }
}

/// All modules of a world of so many, from a state on.
#[tactic(auto, unfolding(crate::specs::Generation::after_modules))]
pub fn all_modules(alloc: Global, start: u32, count: u32) -> Result<Generation, AllocError>
    ensures { IfOk result (λ g. g ≡ all_modules start count) }
{
    let mut generation = Generation::begin(alloc, start);
    for number in 0..count {
        generation.push_module(alloc, count, number)?;
    }
    Ok(generation)
}
