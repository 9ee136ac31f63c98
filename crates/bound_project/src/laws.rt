ghost use Rattle.vba_lib.specs.declared.function.LibraryFunction.{LibraryFunction};
ghost use Rattle.vba_values.specs.declared.types.Compare.{Compare};
ghost use Rattle.std.specs.Prelude.{◌≡◌, ℕ, Bool, None, Option, Some, List, [], ◌∷◌, length, map};
ghost use Rattle.bound_project.specs.declared.node.ArgumentNames.{ArgumentNames};
ghost use Rattle.bound_project.specs.declared.node.LateName.{LateName};
ghost use Rattle.bound_project.specs.declared.node.LateUse.TheVariants.{Assigning, Reading, Setting};
ghost use Rattle.bound_project.specs.declared.node.Node.{Node};
ghost use Rattle.bound_project.specs.declared.node.NodeKind.TheVariants as node;
ghost use Rattle.bound_project.specs.declared.statement.ActionKind.TheVariants as kind;
ghost use Rattle.bound_project.specs.declared.variable.Variable.{Variable};
ghost use Rattle.bound_project.specs.View.{base_view, variable_view};
ghost use Rattle.bound_project.specs.Expressions.{Expr, Lvalue, call, element_along, given_count, host_member, item, late_item, late_member, library, named_member};
ghost use Rattle.bound_project.specs.Statements.{assign_element, assign_item, assign_late, assign_member, print, set_element, set_late};
ghost use Rattle.bound_project.specs.Pieces.{Argument, GivenArgument, Piece, Tables, a_late, a_member, a_named_member, a_place, an_argument, an_expr, by_name_in, expr_of, flags_in, name_in, put_kind, sought_in, which_there};
ghost use Rattle.bound_project.specs.Bodies.{action_of};
ghost use Rattle.bound_project.specs.Lists.{above, args_of, exprs_of, given_of, given_pieces, item_piece, prints_of};
ghost use Rattle.bound_project.specs.Project.{Project, statement_at, next_of};

/// Past the last statement of a procedure its end is next. It holds of the definitions alone, and changes nothing.
pub fn statements_past_the_end_are_next()
    ensures { (pr : Project) (p i : ℕ) → statement_at pr p i ≡ None → next_of pr p i ≡ i }
{}

/// A call takes just the arguments that were put for it, in their order, and leaves the rest. It holds of the
/// definitions alone, and changes nothing.
pub fn calls_take_their_arguments()
    ensures { (t : Tables) (n : Node) (p : ℕ) (args : List Argument) (st : List Piece)
        → put_kind t n (node.Call p (length args)) (above (map an_argument args) st) ≡ expr_of n (call p (args_of args)) ∷ st }
{}

/// A function of the library takes just the values that were put for it. It holds of the definitions alone, and changes
/// nothing.
pub fn functions_take_their_arguments()
    ensures { (t : Tables) (n : Node) (f : LibraryFunction) (text_form : Bool) (es : List Expr) (compare : Compare) (one : Bool) (st : List Piece)
        → put_kind t n (node.Library f text_form (length es) compare one) (above (map an_expr es) st) ≡ expr_of n (library f text_form (exprs_of es) compare (base_view one)) ∷ st }
{}

/// A member takes just the values that were put for it behind the object that was looked at for it. It holds of the
/// definitions alone, and changes nothing.
pub fn members_take_their_arguments()
    ensures { (t : Tables) (n : Node) (i : ℕ) (object : Expr) (es : List Expr) (st : List Piece)
        → put_kind t n (node.HostMember i (length es)) (above (map an_expr es) (a_member object (name_in t i) (given_count (exprs_of es)) ∷ st))
        ≡ expr_of n (host_member object (name_in t i) (exprs_of es)) ∷ st }
{}

/// A member whose last arguments have names takes just the values that were put for it behind the object that was looked
/// at for it. It holds of the definitions alone, and changes nothing.
pub fn named_members_take_their_arguments()
    ensures { (t : Tables) (n : Node) (i : ℕ) (by : ArgumentNames) (object : Expr) (es : List Expr) (st : List Piece)
        → put_kind t n (node.NamedMember i by (length es)) (above (map an_expr es) (a_named_member object (name_in t i) (by_name_in t by) (given_count (exprs_of es)) ∷ st))
        ≡ expr_of n (named_member object (name_in t i) (by_name_in t by) (exprs_of es)) ∷ st }
{}

/// A late-bound member takes just the arguments that were put for it behind the object that was looked at for it. It holds
/// of the definitions alone, and changes nothing.
pub fn late_members_take_their_arguments()
    ensures { (t : Tables) (n : Node) (m : LateName) (object : Expr) (args : List GivenArgument) (st : List Piece) → flags_in t m ≡ which_there (given_of args)
        → put_kind t n (node.LateMember m) (above (given_pieces (sought_in t Reading m) 0 args) (a_late object (sought_in t Reading m) ∷ st))
        ≡ expr_of n (late_member object (name_in t m.name) (by_name_in t m.names) (given_of args)) ∷ st }
{}

/// What arguments lead to in a value, or from a place, takes just the values that were put for it. It holds of the
/// definitions alone, and changes nothing.
pub fn items_along_take_their_arguments()
    ensures value { (t : Tables) (n : Node) (base : Expr) (es : List Expr) (st : List Piece)
        → put_kind t n (node.ItemAlong (length es)) (above (map an_expr es) (an_expr base ∷ st)) ≡ expr_of n (late_item base (exprs_of es)) ∷ st }
    ensures place { (t : Tables) (n : Node) (x : Lvalue) (es : List Expr) (st : List Piece)
        → put_kind t n (node.ElementAlong (length es)) (above (map an_expr es) (a_place x ∷ st)) ≡ a_place (element_along x (exprs_of es)) ∷ st }
{}

/// An assignment to a late-bound member, and Set of it, takes just the arguments that were put for it. It holds of the
/// definitions alone, and changes nothing.
pub fn late_assignments_take_their_arguments()
    ensures assigned { (t : Tables) (m : LateName) (value object : Expr) (args : List GivenArgument) → flags_in t m ≡ which_there (given_of args)
        → action_of t (kind.AssignLate m) (above (given_pieces (sought_in t Assigning m) 0 args) (a_late object (sought_in t Assigning m) ∷ an_expr value ∷ []))
        ≡ Some (assign_late object (name_in t m.name) (by_name_in t m.names) (given_of args) value) }
    ensures set { (t : Tables) (m : LateName) (value object : Expr) (args : List GivenArgument) → flags_in t m ≡ which_there (given_of args)
        → action_of t (kind.SetLate m) (above (given_pieces (sought_in t Setting m) 0 args) (a_late object (sought_in t Setting m) ∷ an_expr value ∷ []))
        ≡ Some (set_late object (name_in t m.name) (by_name_in t m.names) (given_of args) value) }
{}

/// An assignment to what numbers lead to from a place, and Set of it, takes just the numbers that were put for it. It holds
/// of the definitions alone, and changes nothing.
pub fn element_assignments_take_their_numbers()
    ensures assigned { (t : Tables) (value : Expr) (x : Lvalue) (es : List Expr)
        → action_of t (kind.AssignElement (length es)) (above (map an_expr es) (a_place x ∷ an_expr value ∷ [])) ≡ Some (assign_element x (exprs_of es) value) }
    ensures set { (t : Tables) (value : Expr) (x : Lvalue) (es : List Expr)
        → action_of t (kind.SetElement (length es)) (above (map an_expr es) (a_place x ∷ an_expr value ∷ [])) ≡ Some (set_element x (exprs_of es) value) }
{}

/// An assignment to a member takes just the values that were put for it. It holds of the definitions alone, and changes
/// nothing.
pub fn assignments_take_their_arguments()
    ensures { (t : Tables) (i : ℕ) (value object : Expr) (es : List Expr)
        → action_of t (kind.AssignMember i (length es)) (above (map an_expr es) (a_member object (name_in t i) (given_count (exprs_of es)) ∷ an_expr value ∷ []))
        ≡ Some (assign_member object (name_in t i) (exprs_of es) value) }
{}

/// An assignment to an item of a value takes just the numbers that were put for it. It holds of the definitions alone, and
/// changes nothing.
pub fn items_take_their_numbers()
    ensures { (t : Tables) (value base : Expr) (es : List Expr)
        → action_of t (kind.AssignItem (length es)) (above (map an_expr es) (an_expr base ∷ an_expr value ∷ [])) ≡ Some (assign_item base (exprs_of es) value) }
{}

/// An element takes just the numbers that were put for it. It holds of the definitions alone, and changes nothing.
pub fn elements_take_their_numbers()
    ensures { (t : Tables) (n : Node) (x : Variable) (es : List Expr) (st : List Piece)
        → put_kind t n (node.Item x (length es)) (above (map an_expr es) st) ≡ a_place (item (variable_view x) (exprs_of es)) ∷ st }
{}

/// Debug.Print shows just the items that were put for it. It holds of the definitions alone, and changes nothing.
pub fn prints_show_their_items()
    ensures { (t : Tables) (ends : Bool) (items : List (Option Expr))
        → action_of t (kind.Print (length items) ends) (above (map item_piece items) []) ≡ Some (print (prints_of items) ends) }
{}
