// Version 2's definitions computed: numbers, formats, entries, trees and walks of real images, in proofs/. No code and no definitions to believe.
#![tactic(auto)]
