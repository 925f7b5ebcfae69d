// What holds of every step, and two steps worked out.
ghost use Rattle.noise.specs.Laws.{OneStep, WorkedSteps};

// The bits of a step fix its number.
pub fn one_step()
    ensures { OneStep }
{}

// Noise with only bit 136 steps to bits 137 and 0; with only bit 143, to bit 0.
pub fn worked_steps()
    ensures { WorkedSteps }
{}
