// The laws of sound units. The functions do nothing: their contracts are the laws.
ghost use Rattle.f66_soundness.specs.SoundUnits.{SoundNeverWrong, SoundByActs};

/// No run of a sound main unit ends Wrong.
pub fn sound_never_wrong()
    ensures { SoundNeverWrong }
{}

/// The same of a unit whose statements are judged without their labels, as the tests of the rules do.
pub fn sound_by_acts()
    ensures { SoundByActs }
{}
