// Sound code keeps to its shapes. These functions do nothing.
ghost use Rattle.sp_law_machine.specs.keeps.Laws.{InstructionsCan, StepsKeep};

/// A step of sound code keeps to the shapes.
pub fn steps_keep()
    ensures { StepsKeep }
{}

/// Each instruction of sound code finds what it wants.
pub fn instructions_can()
    ensures { InstructionsCan }
{}
