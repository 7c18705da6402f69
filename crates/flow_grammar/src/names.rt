ghost use Rattle.flow_grammar.specs.Roles.{NamesHaveRoles, RolesAreTheNames, script_roles, query_roles};
ghost use Rattle.flow_grammar.specs.Texts.{SpellsScript, SpellsQuery};

/// The names of a text in its order, and what each is there for.
pub fn law_names_have_roles()
    ensures in_scripts { NamesHaveRoles SpellsScript script_roles }
    ensures in_queries { NamesHaveRoles SpellsQuery query_roles }
    ensures of_each_kind { RolesAreTheNames }
{}
