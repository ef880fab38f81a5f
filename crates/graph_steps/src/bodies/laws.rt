//! Laws of what models have, and of what graphs keep.

ghost use Rattle.std.specs.Prelude.{◌≡◌, ◌↔◌, ℕ, List, Some, IsTrue};
ghost use Rattle.json_tree.specs.Values.{Json};
ghost use Rattle.dt_base.specs.names.Grammar.{Identifier, dtmi_text};
ghost use Rattle.dtdl_terms.specs.Sets.{interface_at};
ghost use Rattle.dtdl_terms.specs.declared.interface.Interface.{Interface};
ghost use Rattle.dtdl_terms.specs.declared.resolved.Resolved.{Resolved};
ghost use Rattle.extend_resolve.specs.Breaches.{BreaksNoRule};
ghost use Rattle.extend_resolve.specs.Chains.{IsAncestor};
ghost use Rattle.twin_value.specs.Breaches.{IsBodyBreach, IsTwinBreach, IsLinkBreach, link_called, link_role_of, twin_role_of};
ghost use Rattle.twin_value.specs.Roles.{body_member_role};
ghost use Rattle.twin_value.specs.Twins.{component_members, property_members};
ghost use Rattle.twin_value.specs.declared.code.BodyCode.{BodyCode};
ghost use Rattle.graph_steps.specs.Inherited.{contents, inherited, is_a};
ghost use Rattle.graph_steps.specs.LinkAsks.{link_for};
ghost use Rattle.graph_steps.specs.States.{State, Twin, set_of};
ghost use Rattle.graph_steps.specs.TwinAsks.{component_at, part_role_in, twin_for};
ghost use Rattle.graph_steps.specs.bodies.Bodies.{IsModelIn};
ghost use Rattle.graph_steps.specs.bodies.Kept.{IsKeptTwin, IsKeptLink, IsKeptPart};

/// What is resolved of a model judges and reads bodies as its contents with all that it inherits do, though contents that
/// come along two ways stand twice among these.
pub fn judged_alike()
    ensures twin { (s : State) (i : Interface) (r : Resolved) → IsModelIn s i r → (v : Json) (place : List ℕ) (broken : BodyCode) → IsTwinBreach r v place broken ↔ IsTwinBreach (inherited (set_of s) i) v place broken }
    ensures link { (s : State) (i : Interface) (r : Resolved) → IsModelIn s i r → (v : Json) (place : List ℕ) (broken : BodyCode) → IsLinkBreach r v place broken ↔ IsLinkBreach (inherited (set_of s) i) v place broken }
    ensures part { (s : State) (i : Interface) (r : Resolved) → IsModelIn s i r → (name : List ℕ) (v : Json) (place : List ℕ) (broken : BodyCode)
        → IsBodyBreach (body_member_role (twin_role_of r) name) v place broken ↔ IsBodyBreach (part_role_in s i name) v place broken }
    ensures values { (s : State) (i : Interface) (r : Resolved) → IsModelIn s i r → (v : Json) → property_members (twin_role_of r) v ≡ property_members (twin_role_of (inherited (set_of s) i)) v }
    ensures parts { (s : State) (i : Interface) (r : Resolved) → IsModelIn s i r → (v : Json) → component_members (twin_role_of r) v ≡ component_members (twin_role_of (inherited (set_of s) i)) v }
    ensures payload { (s : State) (i : Interface) (r : Resolved) → IsModelIn s i r → (v : Json) → property_members (link_role_of r v) v ≡ property_members (link_role_of (inherited (set_of s) i) v) v }
    ensures called { (s : State) (i : Interface) (r : Resolved) → IsModelIn s i r → (name : List ℕ) → link_called name r.contents ≡ link_called name (contents (set_of s) i) }
{}

/// In a set that breaks no rule an interface is, or extends, the one with an identifier exactly where an ancestor has it.
pub fn found_ancestors()
    ensures { (set : List Interface) (i : Interface) (id : Identifier) → BreaksNoRule set → interface_at i.id set ≡ Some i
        → IsTrue (is_a set i id) ↔ ((a : Interface) × IsAncestor set i a × (dtmi_text a.id ≡ dtmi_text id)) }
{}

/// The twin and the relationship for which a body stands can be kept.
pub fn kept_for()
    ensures twin { (s : State) (id : List ℕ) (i : Interface) (v : Json) → IsKeptTwin (twin_for s id i v) }
    ensures link { (s : State) (i : Interface) (source id name target : List ℕ) (v : Json) → IsKeptLink (link_for s i source id name target v) }
{}

/// A component of a twin that is kept can be printed.
pub fn kept_part()
    ensures { (t : Twin) (name : List ℕ) (v : Json) → IsKeptTwin t → component_at name t ≡ Some v → IsKeptPart v }
{}
