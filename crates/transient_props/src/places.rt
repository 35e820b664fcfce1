//! Places of names among properties. There are few transient properties, so each search goes through them in turn.
ghost use Rattle.std.specs.Prelude.{◌≡◌};
ghost use Rattle.std.specs.List.{prefix_len, position_or_len};
ghost use Rattle.std.specs.Ordering.{nat_cmp, is_lt};
ghost use Rattle.std.specs.Cmp.Lexicographic.{slice_cmp};
ghost use Rattle.graph_schema.specs.Fault.{same_name, is_named};

use graph_schema::Prop;

/// Whether one of the properties has the name.
pub fn has_name(props: &[Prop], name: &str) -> bool
    ensures { result ≡ is_named (λ p. p.name) props.now name.now }
{
    props.iter().any(|prop| prop.name.as_str() == name)
}

/// The place of the first property with the name, or the number of properties where none has it.
pub fn place_of(props: &[Prop], name: &str) -> usize
    ensures { result ≡ position_or_len (λ p. same_name p.name name.now) props.now }
{
    props
        .iter()
        .take_while(|prop| prop.name.as_str() != name)
        .count()
}

/// How many properties stand before the first whose name is not below this one.
pub fn place_for(props: &[Prop], name: &str) -> usize
    ensures { result ≡ prefix_len (λ p. is_lt (slice_cmp nat_cmp p.name name.now)) props.now }
{
    props
        .iter()
        .take_while(|prop| prop.name.as_str() < name)
        .count()
}
