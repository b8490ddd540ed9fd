ghost use Rattle.bound_normal.specs.Laws.{ExpressionsAreRead, FormsAreNormal, FormsKeepValues, KeysTell, NormalFormsKeep, NormalFormsStay, TextsTell};

/// The form of what the machine holds is a normal form, where it keeps the limits.
pub fn forms_are_normal()
    ensures { FormsAreNormal }
{}

/// Texts tell divided expressions in lowest terms apart, whatever follows them.
pub fn expressions_are_read()
    ensures { ExpressionsAreRead }
{}

/// Two normal forms with one text are one, and two atoms of one kind with one text are one.
pub fn texts_tell()
    ensures forms { TextsTell }
    ensures atoms { KeysTell }
{}

/// The form of what the machine holds has its value at all sizes, where what it needs keeps the limits.
pub fn forms_keep_values()
    ensures { FormsKeepValues }
{}

/// The form of a normal form is itself.
pub fn normal_forms_stay()
    ensures { NormalFormsStay }
{}

/// All that a normal form needs keeps the limits.
pub fn normal_forms_keep()
    ensures { NormalFormsKeep }
{}
