ghost use Rattle.std.specs.Prelude.{◌≡◌, ◌∷◌, [], codes, None, Some, pos, true};
ghost use Rattle.vba_meaning.specs.Memory.{Ended, Faulted};
ghost use Rattle.vba_meaning.specs.Effects.{Printed, Raised};
ghost use Rattle.meaning_rows.specs.Frames.{deep, told};

/// Two thousand frames stand, and no more: a procedure that calls itself prints 1999 from the 2000th frame, and raises 28
/// there where it calls itself once more. It holds of the meaning alone, and changes nothing.
pub fn two_thousand_frames_stand()
    ensures deep { told (deep 1999) 10000 ≡ (Ended, Printed (codes " 1999 ") true ∷ []) }
    ensures full { told (deep 2000) 10000 ≡ (Faulted (record { number = pos 28; source = None; description = None; procedure = 1; statement = Some 2 }), Raised (pos 28) ∷ []) }
{}
