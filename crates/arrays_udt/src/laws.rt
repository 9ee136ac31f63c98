//! Laws of the definitions that the calls are proved against. The functions do nothing: their contracts are the laws.
ghost use Rattle.std.specs.Prelude.{◌≡◌, ◌++◌, ◌<◌, ◌≤◌, ◌⊎◌, ℕ, ℤ, List, Ok, Some, IsSome, length, map, true};
ghost use Rattle.vba_values.specs.declared.value.Bound.{Bound};
ghost use Rattle.vba_values.specs.Coerce.{coerce_of};
ghost use Rattle.vba_values.specs.Types as type;
ghost use Rattle.vba_values.specs.Types.{Declared};
ghost use Rattle.vba_values.specs.Val.{Val, Vals, array, udt, vals_of};
ghost use Rattle.arrays_udt.specs.declared.paths.PathStep.{PathStep};
ghost use Rattle.arrays_udt.specs.Fields.{AreTypes, Field, fields_at, is_known};
ghost use Rattle.arrays_udt.specs.Fresh.{field_initial, filled, initial};
ghost use Rattle.arrays_udt.specs.Paths.{BeginsWith, are_apart, path_value, with_path};
ghost use Rattle.arrays_udt.specs.Resize.{IsWhole, can_resize, element_type, resized};
ghost use Rattle.arrays_udt.specs.Shapes.{elements, is_place, is_shape, layout, place_at};
ghost use Rattle.arrays_udt.specs.WellFormed.{is_held, is_well_formed, type_at};

/// The places of a shape and the offsets below its number of elements belong to each other, one to one.
pub fn offsets_are_places()
    ensures inside { (bounds : List Bound) (place : List ℤ) → is_place bounds place ≡ true → layout bounds place < elements bounds }
    ensures place { (bounds : List Bound) (place : List ℤ) → is_place bounds place ≡ true → place_at bounds (layout bounds place) ≡ place }
    ensures within { (bounds : List Bound) (offset : ℕ) → offset < elements bounds → is_place bounds (place_at bounds offset) ≡ true }
    ensures offset { (bounds : List Bound) (offset : ℕ) → offset < elements bounds → layout bounds (place_at bounds offset) ≡ offset }
{}

/// A write changes the place written and no other. Two paths are apart, or one begins with the other. At a path apart
/// from the one that is written stands what stood there; at the written one and below it stands what the new value has
/// there; above it stands what stood there, with the new value at the rest of the path.
pub fn writes_change_one_place()
    ensures paths { (path other : List PathStep) → (are_apart path other ≡ true) ⊎ (BeginsWith other path ⊎ BeginsWith path other) }
    ensures apart { (value new : Val) (path other : List PathStep) → are_apart path other ≡ true
        → path_value (with_path value path new) other ≡ path_value value other }
    ensures written { (value new : Val) (path rest : List PathStep) → IsSome (path_value value path)
        → path_value (with_path value path new) (path ++ rest) ≡ path_value new rest }
    ensures above { (value old new : Val) (path rest : List PathStep) → path_value value path ≡ Some old
        → path_value (with_path value (path ++ rest) new) path ≡ Some (with_path old rest new) }
{}

/// A value of a Type begins with the initial values of the fields.
pub fn types_begin_with_their_fields()
    ensures { (types : List (List Field)) (number : ℕ) → AreTypes types → number < length types
        → initial types (type.udt number) ≡ udt number (vals_of (map (field_initial types) (fields_at types number))) }
{}

/// Values stay well-formed at every depth: by let-coercion, as values with which variables and arrays begin, by ReDim
/// Preserve, where a value inside of one is read, and where one is written that the type there can hold.
pub fn values_stay_well_formed()
    ensures coerced { (types : List (List Field)) (value given : Val) (to : Declared) → is_well_formed types value ≡ true
        → coerce_of value to ≡ Ok given → is_held types to given ≡ true }
    ensures fresh { (types : List (List Field)) (of : Declared) → AreTypes types → is_known types of ≡ true
        → is_held types of (initial types of) ≡ true }
    ensures filled { (types : List (List Field)) (bounds : List Bound) (element : Declared) → AreTypes types → is_known types element ≡ true
        → is_shape bounds ≡ true → is_held types (type.array_of element) (filled bounds element (initial types element)) ≡ true }
    ensures resized { (types : List (List Field)) (shape : List Bound) (value : Val) → AreTypes types → is_shape shape ≡ true
        → can_resize shape value ≡ true → is_well_formed types value ≡ true
        → is_well_formed types (resized shape (initial types (element_type value)) value) ≡ true }
    ensures read { (types : List (List Field)) (value inner : Val) (path : List PathStep) → is_well_formed types value ≡ true
        → path_value value path ≡ Some inner → is_well_formed types inner ≡ true }
    ensures written { (types : List (List Field)) (of at : Declared) (value new : Val) (path : List PathStep)
        → is_held types of value ≡ true → type_at types of value path ≡ Some at → is_held types at new ≡ true
        → is_held types of (with_path value path new) ≡ true }
{}

/// An array that is well-formed has as many items as its bounds say, at most 1048576, and where it has bounds their type is
/// known.
pub fn well_formed_arrays_are_whole()
    ensures whole { (types : List (List Field)) (bounds : List Bound) (element : Declared) (items : Vals)
        → is_well_formed types (array bounds element items) ≡ true → IsWhole (array bounds element items) }
    ensures few { (types : List (List Field)) (bounds : List Bound) (element : Declared) (items : Vals)
        → is_well_formed types (array bounds element items) ≡ true → elements bounds ≤ 1048576 }
    ensures known { (types : List (List Field)) (bounds : List Bound) (element : Declared) (items : Vals)
        → is_well_formed types (array bounds element items) ≡ true → 0 < length bounds → is_known types element ≡ true }
{}
