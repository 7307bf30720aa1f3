// Places in texts, and the phases of resolution.
use spec_base::{Position, PositionRange, ResolutionKind};

#[test]
fn places_without_a_text(rt: HostRuntime) {
    assert!(rt; PositionRange::zeroed().includes(Position::zeroed()));
    assert!(rt; ResolutionKind::Types.is_types());
}
