//! Laws of the definitions that areas and members are proved against. The functions do nothing: their contracts are the laws.
ghost use Rattle.std.specs.Prelude.{◌≡◌, List, ℕ, Ok};
ghost use Rattle.vba_values.specs.declared.object.HostRef.{HostRef};
ghost use Rattle.sheet_host.specs.Address.{IsAddress, address_of};
ghost use Rattle.sheet_host.specs.AddressText.{area_of_text};
ghost use Rattle.sheet_host.specs.Members.{HaveOwnNumbers, members_of};
ghost use Rattle.sheet_host.specs.Size.{IsAreaInside};
ghost use Rattle.sheet_host.specs.declared.area.Area.{Area};

/// What is read is what the text is an address of, and the address that is written for an area reads as that area.
pub fn addresses_read_back()
    ensures read { (text : List ℕ) (area : Area) → IsAddress text area → area_of_text area.sheet text ≡ Ok area }
    ensures written { (area : Area) → IsAreaInside area → area_of_text area.sheet (address_of area) ≡ Ok area }
{}

/// No two members of one object have the same number.
pub fn members_have_own_numbers()
    ensures { (object : HostRef) → HaveOwnNumbers (members_of object) }
{}
