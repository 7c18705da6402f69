ghost use Rattle.std.specs.Prelude.{◌≡◌, map};
ghost use Rattle.std.specs.Option.{option_copied};
ghost use Rattle.std.specs.List.{find};
ghost use Rattle.flow_form.specs.Script.{declared};
ghost use Rattle.flow_form.specs.Names.{declared_names};
ghost use Rattle.flow_fault.specs.Near.{is_near};

use crate::near::is_near;
use flow_facts::Name;
use flow_form::Decl;

/// The first name that is declared and was perhaps meant in place of that one.
pub fn near_name<'a>(decls: &'a [Decl], name: &[u8]) -> Option<&'a Name>
    ensures { option_copied result ≡ find (is_near name.now) (declared_names (map declared decls.now)) }
{
    for decl in decls {
        if let Decl::Event(declared, _) | Decl::Flow(declared, _) = decl {
            if is_near(name, declared.bytes()) {
                return Some(declared);
            }
        }
    }
    None
}
