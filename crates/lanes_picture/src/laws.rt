//! What follows from the definitions alone. Each law is the contract of a function that does
//! nothing.
ghost use Rattle.lanes_picture.specs.Lanes.{BarsAreApart, BarsAreWithin, LanesAreOfOneTask};
ghost use Rattle.lanes_picture.specs.Lanes.{TasksHaveLanes};

/// States that bars are within the width of their load, and apart where their times are.
pub fn bars()
    ensures within { BarsAreWithin }
    ensures apart { BarsAreApart }
{
    picture_parts::laws::spans();
}

/// States that the task of each bar of a load has a lane, and that no two tasks share one.
pub fn lanes()
    ensures seen { TasksHaveLanes }
    ensures one { LanesAreOfOneTask }
{}
