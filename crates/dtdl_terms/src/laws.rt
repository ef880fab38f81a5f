//! Laws of what interfaces declare.

ghost use Rattle.std.specs.Prelude.{◌≡◌, Contains};
ghost use Rattle.dtdl_terms.specs.declared.content.Content.{Content};
ghost use Rattle.dtdl_terms.specs.declared.interface.Interface.{Interface};
ghost use Rattle.dtdl_terms.specs.Distinct.{HasDeclaration};
ghost use Rattle.dtdl_terms.specs.Equality.{DeclareTheSame, SameContent};
ghost use Rattle.dtdl_terms.specs.TermViews.{content_term};

/// An interface declares the same as itself.
pub fn same_as_itself()
    ensures { (i : Interface) → DeclareTheSame i i }
{}

/// Where one interface declares the same as another, the other declares the same as the one.
pub fn same_both_ways()
    ensures { (i j : Interface) → DeclareTheSame i j → DeclareTheSame j i }
{}

/// Interfaces that declare the same as one interface declare the same.
pub fn same_throughout()
    ensures { (i j k : Interface) → DeclareTheSame i j → DeclareTheSame j k → DeclareTheSame i k }
{}

/// In interfaces that declare the same, contents of one name declare the same: a declaration is a map by names.
pub fn same_under_a_name()
    ensures { (i j : Interface) → HasDeclaration j → DeclareTheSame i j → (c d : Content) → Contains i.contents c → Contains j.contents d → c.name ≡ d.name → SameContent (content_term c) (content_term d) }
{}
