// The report of a policy.
ghost use Rattle.std.specs.Prelude.{◌≡◌, [], ◌∷◌, map, flat_map, false, IfOk, OnOk};
ghost use Rattle.spec_base.specs.Specifier.{specifier_text};
ghost use Rattle.graph_walk.specs.Lent.{lent_texts};
ghost use Rattle.graph_walk.specs.Options.{how};
ghost use Rattle.graph_walk.specs.Order.{texts};
ghost use Rattle.import_policy.specs.Breaches.{edge_breaches, breaches_from, breaches};
ghost use Rattle.import_policy.specs.Edges.{edge_value, edge_values};
ghost use Rattle.import_policy.specs.Reports.{policy_how, IsReport};
ghost use Rattle.import_policy.specs.Traced.{Adds, trace, traced, traces};

use crate::edges::{EdgeRef, edges_from};
use crate::finding::PolicyFinding;
use crate::rule::{PolicyRule, fits};
use crate::search::{Search, search_from};
use graph_core::ModuleGraph;
use graph_walk::{AllCheckJs, CheckJsOption, CheckJsResolver, WalkOptions};
use spec_base::{Items, ModuleSpecifier, Text};
use std::alloc::{AllocError, Global};

// The finding of an edge and the rule at a place.
fn finding(
    alloc: Global,
    search: &Search<'_>,
    from: &ModuleSpecifier,
    edge: &EdgeRef<'_>,
    rule: usize,
) -> Result<PolicyFinding, AllocError>
    ensures { IfOk result
        (λ f. traced f
        ≡ trace search.now
        (record
        { rule = rule; from = specifier_text from.now; edge = edge_value edge.now })) }
{
    let path = search.path_to(alloc, from)?;
    let text = Text::from_str(alloc, edge.text)?;
    let to = edge.to.clone()?;
    let from = from.clone()?;
    Ok(PolicyFinding {
        rule,
        from,
        kind: edge.kind,
        text,
        to,
        path: Items::from(path),
    })
}

// Adds the finding of an edge and a rule, where the rule fits it.
fn push_if_fits(
    alloc: Global,
    search: &Search<'_>,
    findings: &mut Vec<PolicyFinding>,
    from: &ModuleSpecifier,
    edge: &EdgeRef<'_>,
    rule: &PolicyRule,
    place: usize,
) -> Result<(), AllocError>
    ensures { OnOk result
        (Adds findings.old.items findings.new.items
        (traces search.now
        (edge_breaches place (rule.now ∷ []) (specifier_text from.now)
        (edge_value edge.now)))) }
{
    if fits(rule, from, edge) {
        findings.push(finding(alloc, search, from, edge, place)?)?;
    }
    Ok(())
}

// Adds the findings of an edge, in the order of the rules.
fn push_edge(
    alloc: Global,
    search: &Search<'_>,
    findings: &mut Vec<PolicyFinding>,
    from: &ModuleSpecifier,
    edge: &EdgeRef<'_>,
    rules: &[PolicyRule],
) -> Result<(), AllocError>
    ensures { OnOk result
        (Adds findings.old.items findings.new.items
        (traces search.now
        (edge_breaches 0 rules.now (specifier_text from.now) (edge_value edge.now)))) }
{
    for (place, rule) in rules.iter().enumerate() {
        push_if_fits(alloc, search, findings, from, edge, rule, place)?;
    }
    Ok(())
}

// Adds the findings of some edges of a specifier, in order.
fn push_edges(
    alloc: Global,
    search: &Search<'_>,
    findings: &mut Vec<PolicyFinding>,
    from: &ModuleSpecifier,
    edges: &[EdgeRef<'_>],
    rules: &[PolicyRule],
) -> Result<(), AllocError>
    ensures { OnOk result (Adds findings.old.items findings.new.items (traces search.now
        (flat_map (edge_breaches 0 rules.now (specifier_text from.now)) (edge_values edges.now)))) }
{
    for edge in edges {
        push_edge(alloc, search, findings, from, edge, rules)?;
    }
    Ok(())
}

// Adds the findings of a specifier, in the order of its edges.
fn push_specifier<C: CheckJsResolver>(
    alloc: Global,
    graph: &ModuleGraph,
    options: &WalkOptions<'_, C>,
    search: &Search<'_>,
    findings: &mut Vec<PolicyFinding>,
    from: &ModuleSpecifier,
    rules: &[PolicyRule],
) -> Result<(), AllocError>
    requires { options.now.prefer_fast_check_graph ≡ false }
    ensures { OnOk result
        (Adds findings.old.items findings.new.items
        (traces search.now
        (breaches_from graph.now (how C.resolves options.now) rules.now
        (specifier_text from.now)))) }
{
    let edges = edges_from(alloc, graph, options, from)?;
    push_edges(alloc, search, findings, from, edges.as_slice(), rules)
}

// The findings of some specifiers, in order.
fn findings_of<C: CheckJsResolver>(
    alloc: Global,
    graph: &ModuleGraph,
    options: &WalkOptions<'_, C>,
    search: &Search<'_>,
    specifiers: &[&ModuleSpecifier],
    rules: &[PolicyRule],
) -> Result<Vec<PolicyFinding>, AllocError>
    requires { options.now.prefer_fast_check_graph ≡ false }
    ensures { IfOk result (λ found. map traced found.items
        ≡ traces search.now
        (breaches graph.now (how C.resolves options.now) rules.now (lent_texts specifiers.now))) }
{
    let mut findings = Vec::new(alloc);
    for specifier in specifiers {
        push_specifier(
            alloc,
            graph,
            options,
            search,
            &mut findings,
            specifier,
            rules,
        )?;
    }
    Ok(findings)
}

/// Which edges of what a walk comes to break which rules: all breaches, each once, in the order of the specifier's text, then
/// the place of the edge, then the rule, each with a path to the specifier from a start of the walk to which no other is
/// shorter. The walk mustn't prefer what a fast check left. The only error is want of memory.
pub fn report<C: CheckJsResolver>(
    alloc: Global,
    graph: &ModuleGraph,
    roots: &[ModuleSpecifier],
    options: WalkOptions<'_, C>,
    rules: &[PolicyRule],
) -> Result<Vec<PolicyFinding>, AllocError>
    requires { options.prefer_fast_check_graph ≡ false }
    ensures { IfOk result
        (λ found. IsReport graph.now (how C.resolves options.entry) (texts roots.now) rules.now
        found.items) }
{
    let search = search_from(alloc, graph, roots, &options)?;
    let specifiers = search.in_order(alloc)?;
    findings_of(
        alloc,
        graph,
        &options,
        &search,
        specifiers.as_slice(),
        rules,
    )
}

/// The report on a whole graph: over its own roots, its kind and dynamic imports, where all JavaScript is checked. The only
/// error is want of memory.
pub fn graph_report(
    alloc: Global,
    graph: &ModuleGraph,
    rules: &[PolicyRule],
) -> Result<Vec<PolicyFinding>, AllocError>
    ensures { IfOk result
        (λ found. IsReport graph.now (policy_how graph.now) (texts graph.now.roots) rules.now
        found.items) }
{
    let options: WalkOptions<'_, AllCheckJs> = WalkOptions {
        check_js: CheckJsOption::True,
        follow_dynamic: true,
        kind: graph.graph_kind(),
        prefer_fast_check_graph: false,
    };
    report(
        alloc,
        graph,
        graph.roots.as_set().as_slice(),
        options,
        rules,
    )
}
