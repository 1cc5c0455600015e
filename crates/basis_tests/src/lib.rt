//! Examples that show that the theorems on strong bases say something.
#![tactic(auto)]

ghost use Rattle.basis_tests.specs.SixCodes.{ALineIsLost, ThreeLines};

/// Over six codes, 2a² + 3a + 1, 3a + 3 and a² + 3a + 2 meet the criterion, and are a strong basis of the first alone.
pub fn three_lines_are_a_basis()
    ensures { ThreeLines }
{}

/// The first line alone meets all of the criterion but its part on A-polynomials, which it meets only weakly, and is no strong basis.
pub fn a_line_is_lost_without_its_annihilator()
    ensures { ALineIsLost }
{}
